ghost use Rattle.std.specs.Prelude.{◌≡◌, drop};
ghost use Rattle.journal_reader.specs.Reads.{Sorts};
ghost use Rattle.site_journal.specs.Journal.{mark};

use crate::numbers::array;
use crate::part::Part;
use crate::unread::Unread;
use edges::Source;
use pg_text::Failure;
use std::alloc::Global;

/// The first byte of the mark at the beginning of a journal.
pub(crate) const FIRST: u8 = b'P';

/// What stands behind it.
const TAIL: [u8; 7] = *b"GJRNL1\n";

/// The mark behind its first byte.
#[derive(Drop)]
pub(crate) struct MarkTail;

impl Part for MarkTail {
    ghost use Rattle.std.specs.Prelude.{⊤};

    ghost is = { λ _. ⊤ };

    ghost text = { λ _. drop 1 mark };

    fn read<S: Source>(
        alloc: Global,
        source: &mut S,
        room: &mut u64,
    ) -> Result<Self, Failure<Unread>> {
        let bytes = array::<S, 7>(alloc, source, room)?;
        tail_of(bytes)
    }
}

// The mark's bytes, where these are they.
fn tail_of(bytes: [u8; 7]) -> Result<MarkTail, Failure<Unread>>
    ensures { Sorts (λ _. drop 1 mark) (λ bytes. bytes ≡ drop 1 mark) bytes result }
{
    if bytes == TAIL {
        Ok(MarkTail)
    } else {
        Err(Failure::Fault(Unread::NotThere))
    }
}
