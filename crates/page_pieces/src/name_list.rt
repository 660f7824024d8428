ghost use Rattle.std.specs.Prelude.{◌≡◌, [], ◌∷◌, ◌++◌, IfOk, OnErr, OnOk};
ghost use Rattle.page_pieces.specs.ReadNames.{names_in};
ghost use Rattle.page_pieces.specs.Settings.{contains_text};

use crate::name_run::{NameRun, have_name, push_run, push_runs};
use crate::name_set::NameSet;
use pg_text::Text;
use std::alloc::{AllocError, Global};
use std::marker::Model;
use std::mem;

/// Names in order, each to be looked up. Those that were closed are shared with the lists that they
/// come to. Contracts see the list of them.
#[derive(Drop)]
pub struct NameList {
    // The names that were closed, in runs.
    runs: Vec<NameRun>,
    // The names behind those, of this list alone.
    own: NameSet,
}

impl Model for NameList {
    ghost use Rattle.std.specs.Prelude.{List, ℕ, ◌++◌};
    ghost use Rattle.page_pieces.specs.ReadNames.{names_in};

    ghost Value = { List (List ℕ) };

    ghost view = { λ n. names_in n.runs.items ++ n.own };
}

impl NameList {
    pub fn new(alloc: Global) -> Self
        ensures { result ≡ [] }
    {
        NameList {
            runs: Vec::new(alloc),
            own: NameSet::new(alloc),
        }
    }

    pub fn push(&mut self, name: Text) -> Result<(), AllocError>
        ensures ok { OnOk result (self.new ≡ self.old ++ name ∷ []) }
        ensures err { OnErr result (self.new ≡ self.old) }
    {
        self.own.push(name)
    }

    /// A copy of a name comes behind those that are there.
    pub fn push_copy(&mut self, name: &str) -> Result<(), AllocError>
        ensures ok { OnOk result (self.new ≡ self.old ++ name.now ∷ []) }
        ensures err { OnErr result (self.new ≡ self.old) }
    {
        let alloc = self.own.alloc();
        self.push(Text::copy_of(alloc, name)?)
    }

    /// Copies of these names come behind those that are there.
    pub fn push_all(&mut self, names: &[Text]) -> Result<(), AllocError>
        ensures { OnOk result (self.new ≡ self.old ++ names.now) }
    {
        self.own.push_all(names)
    }

    /// The names of another list come behind those that are there: shared where they were closed,
    /// and else copied.
    pub fn append(&mut self, more: &NameList) -> Result<(), AllocError>
        ensures { OnOk result (self.new ≡ self.old ++ more.now) }
    {
        close(&mut self.runs, &mut self.own)?;
        push_runs(&mut self.runs, &more.runs)?;
        self.own.push_all(more.own.as_slice())
    }

    /// The names that are there are shared from now on with the lists that they come to.
    pub fn close(&mut self) -> Result<(), AllocError>
        ensures { OnOk result (self.new ≡ self.old) }
    {
        close(&mut self.runs, &mut self.own)
    }

    #[tactic(auto, using(crate::proofs::NameListLemmas::contains_both))]
    pub fn contains(&self, name: &str) -> bool
        ensures { result ≡ contains_text name.now self.now }
    {
        have_name(&self.runs, name) || self.own.contains(name)
    }

    /// Equal names.
    pub fn copy(&self) -> Result<Self, AllocError>
        ensures { IfOk result (λ copy. copy ≡ self.now) }
    {
        let mut copy = NameList::new(self.own.alloc());
        copy.append(self)?;
        Ok(copy)
    }
}

// The names become a run, where there are any.
#[tactic(auto, using(crate::proofs::NameListLemmas::none_there))]
fn close(runs: &mut Vec<NameRun>, names: &mut NameSet) -> Result<(), AllocError>
    ensures runs { OnOk result (names_in runs.new.items ≡ names_in runs.old.items ++ names.old) }
    ensures names { OnOk result (names.new ≡ []) }
{
    if names.is_empty() {
        return Ok(());
    }
    let none = NameSet::new(names.alloc());
    let whole = mem::replace(names, none);
    push_run(runs, NameRun::new(whole)?)
}
