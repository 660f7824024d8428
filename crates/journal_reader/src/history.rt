ghost use Rattle.std.specs.Prelude.{◌≡◌, ◌↔◌, IsTrue};
ghost use Rattle.std.specs.List.{list_any};
ghost use Rattle.journal_reader.specs.Reads.{Sorts};
ghost use Rattle.site_journal.specs.Reading.{EndsByRoll, is_roll};

use crate::part::Part;
use crate::unread::Unread;
use edges::Source;
use pg_text::{Failure, Listed};
use site_words::{Entry, Op};
use std::alloc::Global;

/// Entries, in order.
pub type Entries = Listed<Entry>;

/// A history: entries of which the last and no other is a Roll.
#[derive(Drop)]
pub(crate) struct History {
    pub(crate) entries: Entries,
}

impl Part for History {
    ghost use Rattle.site_journal.specs.Codes.{IsList, of_list};
    ghost use Rattle.site_journal.specs.Journal.{of_entry};
    ghost use Rattle.site_journal.specs.Reading.{IsEntry};

    ghost is = { λ history. IsList IsEntry history.entries × EndsByRoll history.entries };

    ghost text = { λ history. of_list of_entry history.entries };

    fn read<S: Source>(
        alloc: Global,
        source: &mut S,
        room: &mut u64,
    ) -> Result<Self, Failure<Unread>> {
        let entries = Entries::read(alloc, source, room)?;
        history_of(entries)
    }
}

// These entries, where they end by a Roll.
fn history_of(entries: Entries) -> Result<History, Failure<Unread>>
    ensures { Sorts (λ history. history.entries) EndsByRoll entries result }
{
    if ends_by_roll(entries.as_slice()) {
        Ok(History { entries })
    } else {
        Err(Failure::Fault(Unread::NotThere))
    }
}

// Whether the last entry is a Roll, and no other.
fn ends_by_roll(entries: &[Entry]) -> bool
    ensures { IsTrue result ↔ EndsByRoll entries.now }
{
    let Some((last, front)) = entries.split_last() else {
        return false;
    };
    is_roll(last) && !has_roll(front)
}

// Whether a Roll is among the entries.
fn has_roll(entries: &[Entry]) -> bool
    ensures { result ≡ list_any is_roll entries.now }
{
    entries.iter().any(is_roll)
}

// Whether an entry is a Roll.
fn is_roll(entry: &Entry) -> bool
    ensures { result ≡ is_roll entry.now }
{
    matches!(entry.op, Op::Roll)
}
