ghost use Rattle.std.specs.Prelude.{◌≡◌, ◌==◌, ◌∷◌, ◌++◌, [], List, ℕ, length, IfOk, OnErr, OnOk};
ghost use Rattle.std.specs.Option.{IfSome};
ghost use Rattle.page_pieces.specs.ReadNames.{HasNames};
ghost use Rattle.page_pieces.specs.Settings.{contains_text};

use pg_text::Text;
use std::alloc::{AllocError, Global};
use std::collections::BTreeSet;
use std::marker::Model;
use std::string::String;

// Names in order, each to be looked up. Contracts see the list of them.
#[derive(Drop)]
pub(crate) struct NameSet {
    items: Vec<Text>,
    // The same to be looked up. Once memory ran out it isn't there: then the names are looked
    // through one after the other.
    known: Option<BTreeSet<String>>,
}

impl Model for NameSet {
    ghost use Rattle.std.specs.Option.{IfSome};
    ghost use Rattle.std.specs.Prelude.{List, ℕ};
    ghost use Rattle.page_pieces.specs.ReadNames.{HasNames};

    ghost Value = { List (List ℕ) };

    ghost view = { λ n. n.items.items };

    ghost invariant = { λ n. IfSome n.known (λ known. HasNames known n.items.items) };
}

impl NameSet {
    #[tactic(auto, using(crate::proofs::NameListLemmas::names_none))]
    pub fn new(alloc: Global) -> Self
        ensures { result ≡ [] }
    {
        NameSet {
            items: Vec::new(alloc),
            known: Some(BTreeSet::new(alloc)),
        }
    }

    pub fn alloc(&self) -> Global {
        *self.items.allocator()
    }

    pub fn push(&mut self, name: Text) -> Result<(), AllocError>
        ensures ok { OnOk result (self.new ≡ self.old ++ name ∷ []) }
        ensures err { OnErr result (self.new ≡ self.old) }
    {
        let alloc = *self.items.allocator();
        let known = known_with(alloc, self.known.take(), name.as_str())?;
        self.items.push(name)?;
        self.known = known;
        Ok(())
    }

    // Copies of these names come behind those that are there.
    pub fn push_all(&mut self, names: &[Text]) -> Result<(), AllocError>
        ensures { OnOk result (self.new ≡ self.old ++ names.now) }
    {
        for name in names {
            self.push(name.copy()?)?;
        }
        Ok(())
    }

    pub fn as_slice(&self) -> &[Text]
        ensures { result.now ≡ self.now }
    {
        &self.items
    }

    pub fn is_empty(&self) -> bool
        ensures { result ≡ (length self.now == 0) }
    {
        self.items.is_empty()
    }

    pub fn contains(&self, name: &str) -> bool
        ensures { result ≡ contains_text name.now self.now }
    {
        match &self.known {
            Some(known) => knows(known, name),
            None => contains(&self.items, name),
        }
    }
}

// Whether the set has a name.
fn knows(known: &BTreeSet<String>, name: &str) -> bool
    ensures { (names : List (List ℕ)) → HasNames known.now names →
        result ≡ contains_text name.now names }
{
    known.contains(name)
}

// What is known with one more name, unless memory ran out for what was known before.
fn known_with(
    alloc: Global,
    known: Option<BTreeSet<String>>,
    name: &str,
) -> Result<Option<BTreeSet<String>>, AllocError>
    ensures { IfOk result (λ more. (names : List (List ℕ)) →
        IfSome known (λ known. HasNames known names) →
        IfSome more (λ known. HasNames known (names ++ name.now ∷ []))) }
{
    match known {
        Some(known) => Ok(Some(with_name(alloc, known, name)?)),
        None => Ok(None),
    }
}

// The set with one more name.
fn with_name(
    alloc: Global,
    mut known: BTreeSet<String>,
    name: &str,
) -> Result<BTreeSet<String>, AllocError>
    ensures { IfOk result (λ more. (names : List (List ℕ)) → HasNames known names →
        HasNames more (names ++ name.now ∷ [])) }
{
    known.insert(String::from_str(alloc, name)?)?;
    Ok(known)
}

// Whether the text is one of these, which are compared one after the other.
fn contains(texts: &[Text], text: &str) -> bool
    ensures { result ≡ contains_text text.now texts.now }
{
    for item in texts {
        if item.as_str() == text {
            return true;
        }
    }
    false
}
