ghost use Rattle.std.specs.Prelude.{◌≡◌, ◌≤◌, ◌++◌, length, IfOk, OnOk};
ghost use Rattle.page_pieces.specs.ReadNames.{names_in};
ghost use Rattle.page_pieces.specs.Settings.{contains_text};

use crate::name_set::NameSet;
use pg_text::Text;
use std::alloc::{AllocError, Global};
use std::marker::Model;
use std::sync::Arc;

// Where a list has so many runs, the last of them are joined before one more comes: a name is
// looked for in each.
const MANY: usize = 128;

// Names that lists share. Contracts see the list of them.
#[derive(Drop)]
pub(crate) struct NameRun {
    names: Arc<NameSet>,
}

impl Model for NameRun {
    ghost use Rattle.std.specs.Prelude.{List, ℕ};

    ghost Value = { List (List ℕ) };

    ghost view = { λ r. r.names.value };
}

impl NameRun {
    pub fn new(names: NameSet) -> Result<Self, AllocError>
        ensures { IfOk result (λ run. run ≡ names) }
    {
        Ok(NameRun {
            names: Arc::new(names.alloc(), names)?,
        })
    }

    pub fn copy(&self) -> Result<Self, AllocError>
        ensures { IfOk result (λ copy. copy ≡ self.now) }
    {
        Ok(NameRun {
            names: Arc::try_clone(&self.names)?,
        })
    }

    pub fn contains(&self, name: &str) -> bool
        ensures { result ≡ contains_text name.now self.now }
    {
        self.names.contains(name)
    }

    fn as_slice(&self) -> &[Text]
        ensures { result.now ≡ self.now }
    {
        self.names.as_slice()
    }

    fn len(&self) -> usize
        ensures { result ≡ length self.now }
    {
        self.as_slice().len()
    }
}

// A run comes behind those that are there.
pub(crate) fn push_run(runs: &mut Vec<NameRun>, run: NameRun) -> Result<(), AllocError>
    ensures { OnOk result (names_in runs.new.items ≡ names_in runs.old.items ++ run) }
{
    if runs.len() >= MANY {
        join_last(runs)?;
    }
    runs.push(run)?;
    Ok(())
}

// The last of these runs become one. Each is at most twice as long as those behind it together, so
// that a name is copied seldom.
fn join_last(runs: &mut Vec<NameRun>) -> Result<(), AllocError>
    ensures { OnOk result (names_in runs.new.items ≡ names_in runs.old.items) }
{
    let kept = kept_runs(runs);
    if runs.len() - kept < 2 {
        return Ok(());
    }
    let names = joined(*runs.allocator(), &runs[kept..])?;
    let run = NameRun::new(names)?;
    runs.truncate(kept);
    runs.push(run)?;
    Ok(())
}

// How many runs stand before those that become one.
fn kept_runs(runs: &[NameRun]) -> usize
    ensures { result ≤ length runs.now }
{
    let mut kept = runs.len();
    let mut behind = 0usize;
    while kept > 0 {
        let next = runs[kept - 1].len();
        if kept < runs.len() && next / 2 > behind {
            return kept;
        }
        behind = behind.saturating_add(next);
        kept -= 1;
    }
    kept
}

// The names of these runs in one set.
fn joined(alloc: Global, runs: &[NameRun]) -> Result<NameSet, AllocError>
    ensures { IfOk result (λ names. names ≡ names_in runs.now) }
{
    let mut names = NameSet::new(alloc);
    for run in runs {
        names.push_all(run.as_slice())?;
    }
    Ok(names)
}

// Copies of these runs come behind those that are there.
pub(crate) fn push_runs(runs: &mut Vec<NameRun>, more: &[NameRun]) -> Result<(), AllocError>
    ensures { OnOk result (names_in runs.new.items ≡ names_in runs.old.items ++ names_in more.now) }
{
    for run in more {
        push_run(runs, run.copy()?)?;
    }
    Ok(())
}

// Whether one of these runs has a name.
pub(crate) fn have_name(runs: &[NameRun], name: &str) -> bool
    ensures { result ≡ contains_text name.now (names_in runs.now) }
{
    for run in runs {
        if run.contains(name) {
            return true;
        }
    }
    false
}
