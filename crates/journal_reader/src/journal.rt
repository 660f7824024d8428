ghost use Rattle.journal_reader.specs.Next.{IsJournalOf, ReadsNext, of_journal, of_tail};
ghost use Rattle.journal_reader.specs.Reads.{Reads};

use crate::history::{Entries, History};
use crate::mark::{FIRST, MarkTail};
use crate::part::Part;
use crate::unread::Unread;
use edges::Source;
use pg_text::Failure;
use site_journal::Talk;
use site_words::Opening;
use std::alloc::Global;

/// A journal: what a site was at first, its history with the Roll at its end, and the talk that
/// made it, where one connection did.
#[derive(Drop)]
pub struct Journal {
    pub opening: Opening,
    pub history: Entries,
    pub talk: Option<Talk>,
}

/// Reads the journal that stands next, or answers None where the source has no byte left. At most
/// `room` bytes may be read, and it falls by those that were. Journals may stand one behind the
/// other: the next call reads on behind this one.
///
/// Errors: `NotThere` where bytes come and don't begin with a journal; `TooLong` where more bytes
/// come than may be read, and those don't begin with one; `Failed` where the source failed;
/// `NoMemory` where memory ran out. After an error the source has given some of the bytes.
pub fn next_journal<S: Source>(
    alloc: Global,
    source: &mut S,
    room: &mut u64,
) -> Result<Option<Journal>, Failure<Unread>>
    ensures { ReadsNext (S.left source.old) (S.left source.new) room.old room.new (S.faults source.old)
        (S.faults source.new) result }
{
    match u8::read(alloc, source, room) {
        Ok(FIRST) => Ok(Some(behind_first(alloc, source, room)?)),
        Ok(_) => Err(Failure::Fault(Unread::NotThere)),
        Err(Failure::Fault(Unread::NotThere)) => Ok(None),
        Err(failure) => Err(failure),
    }
}

// Reads a journal behind its first byte.
fn behind_first<S: Source>(
    alloc: Global,
    source: &mut S,
    room: &mut u64,
) -> Result<Journal, Failure<Unread>>
    ensures { Reads IsJournalOf of_tail (S.left source.old) (S.left source.new) room.old room.new
        (S.faults source.old) (S.faults source.new) result }
{
    let parts = <(((MarkTail, Opening), History), Option<Talk>)>::read(alloc, source, room)?;
    let (((_, opening), history), talk) = parts;
    Ok(Journal {
        opening,
        history: history.entries,
        talk,
    })
}
