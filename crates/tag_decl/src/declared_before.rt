ghost use Rattle.std.specs.Prelude.{◌≡◌, ◌∷◌, ◌++◌, ◌||◌, [], List, ℕ, Bool, IfOk, OnOk};
ghost use Rattle.std.specs.BTreeSet.{contains};
ghost use Rattle.std.specs.Borrow.{Bor};
ghost use Rattle.std.specs.Option.{option_map};
ghost use Rattle.page_directives.specs.ReadKnown.{text_order};
ghost use Rattle.page_directives.specs.Settings.{is_value};
ghost use Rattle.page_pieces.specs.Settings.{contains_text};
ghost use Rattle.tag_decl.specs.Faults.{declared_names};

use crate::names::{attribute_name, variable_of};
use page_directives::{Before, Directive};
use std::alloc::{AllocError, Global};
use std::collections::BTreeSet;
use std::marker::Model;

/// The directives of a tag file itself that stand before another, with the names that they declare.
/// Contracts see the list of them.
#[derive(Drop)]
pub struct DeclaredBefore<'a> {
    before: Before<'a>,
    names: BTreeSet<&'a str>,
}

impl<'a> Model for DeclaredBefore<'a> {
    ghost use Rattle.std.specs.Prelude.{List};
    ghost use Rattle.page_directives.specs.Directive.{Directive as Seen};
    ghost use Rattle.tag_decl.specs.ReadNames.{HasNames};

    ghost Value = { List Seen };

    ghost view = { λ d. d.before.directives };

    ghost invariant = { λ d. HasNames d.names d.before.directives };
}

impl<'a> DeclaredBefore<'a> {
    /// None.
    pub fn new(alloc: Global) -> Self
        ensures { result ≡ [] }
    {
        DeclaredBefore {
            before: Before::new(alloc),
            names: BTreeSet::new(alloc),
        }
    }

    /// These and one more behind them.
    pub fn behind(self, directive: Directive<'a>) -> Result<Self, AllocError>
        ensures { IfOk result (λ more. more ≡ self.entry ++ directive.entry ∷ []) }
    {
        let DeclaredBefore {
            mut before,
            mut names,
        } = self;
        insert_name(&mut names, attribute_name(&directive))?;
        insert_name(&mut names, variable_of(&directive))?;
        before.push(directive)?;
        Ok(DeclaredBefore { before, names })
    }

    // The directives, as they are asked for settings.
    pub(crate) fn settings(&self) -> &Before<'a>
        ensures { result.now.directives ≡ self.now }
    {
        &self.before
    }

    // Whether a name is declared.
    pub(crate) fn declares(&self, name: &str) -> bool
        ensures { result ≡ contains_text name.now (declared_names self.now) }
    {
        self.names.contains(name)
    }
}

// Adds a name, where there is one.
fn insert_name<'a>(names: &mut BTreeSet<&'a str>, name: Option<&'a str>) -> Result<(), AllocError>
    ensures { OnOk result ((has : List ℕ → Bool) →
        ((other : Bor (List ℕ)) → contains text_order names.old other ≡ has other.now)
        → (other : Bor (List ℕ)) → contains text_order names.new other
        ≡ (has other.now || is_value other.now (option_map (λ name. name.now) name.entry))) }
{
    if let Some(name) = name {
        names.insert(name)?;
    }
    Ok(())
}
