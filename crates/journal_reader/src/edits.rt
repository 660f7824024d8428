ghost use Rattle.std.specs.Prelude.{flat_map};
ghost use Rattle.journal_reader.specs.Reads.{AreSo, Reads};
ghost use Rattle.site_journal.specs.Journal.{of_edit};
ghost use Rattle.site_journal.specs.Reading.{IsEdit};

use crate::part::Part;
use crate::unread::Unread;
use edges::Source;
use pg_text::{Failure, Path, Text};
use source_tree::{Edit, Edits};
use std::alloc::Global;

impl Part for Edit {
    ghost use Rattle.site_journal.specs.Journal.{of_edit};
    ghost use Rattle.site_journal.specs.Reading.{IsEdit};

    ghost is = { λ edit. IsEdit edit };

    ghost text = { λ edit. of_edit edit };

    fn read<S: Source>(
        alloc: Global,
        source: &mut S,
        room: &mut u64,
    ) -> Result<Self, Failure<Unread>> {
        match u8::read(alloc, source, room)? {
            0 => {
                let parts = <(Path, Text)>::read(alloc, source, room)?;
                Ok(Edit::Put(parts.0, parts.1))
            }
            1 => Ok(Edit::Delete(Path::read(alloc, source, room)?)),
            _ => Err(Failure::Fault(Unread::NotThere)),
        }
    }
}

impl Part for Edits {
    ghost use Rattle.site_journal.specs.Codes.{IsList, of_list};

    ghost is = { λ edits. IsList IsEdit edits };

    ghost text = { λ edits. of_list of_edit edits };

    fn read<S: Source>(
        alloc: Global,
        source: &mut S,
        room: &mut u64,
    ) -> Result<Self, Failure<Unread>> {
        let count = u64::read(alloc, source, room)?;
        some_edits(alloc, source, room, count)
    }
}

// Reads so many edits.
fn some_edits<S: Source>(
    alloc: Global,
    source: &mut S,
    room: &mut u64,
    count: u64,
) -> Result<Edits, Failure<Unread>>
    ensures { Reads (AreSo count IsEdit) (flat_map of_edit) (S.left source.old) (S.left source.new)
        room.old room.new (S.faults source.old) (S.faults source.new) result }
{
    let mut edits = Edits::new(alloc);
    'fill: while (edits.len() as u64) < count {
        let edit = Edit::read(alloc, source, room)?;
        edits.push(edit)?;
    }
    Ok(edits)
}
