ghost use Rattle.std.specs.Prelude.{◌≡◌, ◌∷◌, ◌++◌, [], IfOk, OnOk};
ghost use Rattle.page_pieces.specs.Settings.{contains_text};
ghost use Rattle.jstl_tags.specs.Check.{repeats};
ghost use Rattle.jstl_tags.specs.ReadParts.{part_names_of};

use crate::given::part_name;
use crate::standing::Standing;
use page_pieces::NameList;
use std::alloc::{AllocError, Global};
use std::marker::Model;

/// All that stands in the body of an element, in order. Contracts see the list of it.
#[derive(Drop)]
pub struct Standings<'a> {
    items: Vec<Standing<'a>>,
    // The names of the attributes that `jsp:attribute` gives, and whether it gives one twice.
    names: NameList,
    twice: bool,
}

impl<'a> Model for Standings<'a> {
    ghost use Rattle.std.specs.Prelude.{◌≡◌, List};
    ghost use Rattle.jstl_tags.specs.Check.{repeats};
    ghost use Rattle.jstl_tags.specs.declared.standing.Standing.{Standing};
    ghost use Rattle.jstl_tags.specs.ReadParts.{part_names_of};

    ghost Value = { List Standing };

    ghost view = { λ s. s.items.items };

    ghost invariant = { λ s. (s.names ≡ part_names_of s.items.items) × (s.twice ≡ repeats s.names) };
}

impl<'a> Standings<'a> {
    /// These things, looked through for the names that `jsp:attribute` gives.
    pub fn new(alloc: Global, items: Vec<Standing<'a>>) -> Result<Self, AllocError>
        ensures { IfOk result (λ standings. standings ≡ items.entry.items) }
    {
        let mut names = NameList::new(alloc);
        let mut twice = false;
        for thing in &items {
            twice = add_name(&mut names, twice, *thing)?;
        }
        Ok(Standings {
            items,
            names,
            twice,
        })
    }

    pub fn as_slice(&self) -> &[Standing<'a>]
        ensures { result.now ≡ self.now }
    {
        &self.items
    }

    // Whether `jsp:attribute` gives that name.
    pub(crate) fn gives(&self, name: &str) -> bool
        ensures { result ≡ contains_text name.now (part_names_of self.now) }
    {
        self.names.contains(name)
    }

    // Whether `jsp:attribute` gives a name twice.
    pub(crate) fn gives_twice(&self) -> bool
        ensures { result ≡ repeats (part_names_of self.now) }
    {
        self.twice
    }
}

// Adds the name that a thing gives, where it gives one. Whether a name stands there twice is handed
// on.
#[tactic(auto, using(crate::proofs::PartLemmas::names_are, crate::proofs::PartLemmas::repeats_more))]
fn add_name(names: &mut NameList, twice: bool, thing: Standing) -> Result<bool, AllocError>
    ensures names { OnOk result (names.new ≡ names.old ++ part_names_of (thing.entry ∷ [])) }
    ensures twice { IfOk result (λ now. twice ≡ repeats names.old → now ≡ repeats names.new) }
{
    let Some(name) = part_name(thing) else {
        return Ok(twice);
    };
    let again = names.contains(name);
    names.push_copy(name)?;
    Ok(twice || again)
}
