ghost use Rattle.std.specs.Prelude.{flat_map};
ghost use Rattle.journal_reader.specs.Reads.{AreSo, Reads};

use crate::part::Part;
use crate::unread::Unread;
use edges::Source;
use pg_text::{Failure, Listed};
use std::alloc::Global;

impl<T: Part + Drop> Part for Option<T> {
    ghost use Rattle.site_journal.specs.Codes.{IsOption, of_option};

    ghost is = { λ item. IsOption T.is item };

    ghost text = { λ item. of_option T.text item };

    fn read<S: Source>(
        alloc: Global,
        source: &mut S,
        room: &mut u64,
    ) -> Result<Self, Failure<Unread>> {
        match u8::read(alloc, source, room)? {
            0 => Ok(None),
            1 => Ok(Some(T::read(alloc, source, room)?)),
            _ => Err(Failure::Fault(Unread::NotThere)),
        }
    }
}

impl<T: Part + Drop> Part for Listed<T> {
    ghost use Rattle.site_journal.specs.Codes.{IsList, of_list};

    ghost is = { λ items. IsList T.is items };

    ghost text = { λ items. of_list T.text items };

    fn read<S: Source>(
        alloc: Global,
        source: &mut S,
        room: &mut u64,
    ) -> Result<Self, Failure<Unread>> {
        let count = u64::read(alloc, source, room)?;
        items(alloc, source, room, count)
    }
}

// Reads so many items. No memory is taken for one before its bytes are there.
fn items<S: Source, T: Part + Drop>(
    alloc: Global,
    source: &mut S,
    room: &mut u64,
    count: u64,
) -> Result<Listed<T>, Failure<Unread>>
    ensures { Reads (AreSo count T.is) (flat_map T.text) (S.left source.old) (S.left source.new)
        room.old room.new (S.faults source.old) (S.faults source.new) result }
{
    let mut items = Listed::empty(alloc);
    'fill: while (items.len() as u64) < count {
        let item = T::read(alloc, source, room)?;
        items.push(item)?;
    }
    Ok(items)
}
