ghost use Rattle.std.specs.Prelude.{map};
ghost use Rattle.journal_reader.specs.Reads.{Sorts};
ghost use Rattle.journal_reader.specs.Values.{are_attrs};
ghost use Rattle.pg_value.specs.Attrs.{AreInOrder};
ghost use Rattle.pg_value.specs.Value.{entry_of};

use crate::frames;
use crate::part::Part;
use crate::rising::are_rising;
use crate::unread::Unread;
use edges::Source;
use pg_text::{Failure, Listed, Text};
use pg_value::{Attrs, Value};
use std::alloc::Global;

impl Part for Value {
    ghost use Rattle.journal_reader.specs.Values.{IsValue};
    ghost use Rattle.site_journal.specs.Journal.{of_value};

    ghost is = { λ value. IsValue value };

    ghost text = { λ value. of_value value };

    fn read<S: Source>(
        alloc: Global,
        source: &mut S,
        room: &mut u64,
    ) -> Result<Self, Failure<Unread>> {
        frames::value(alloc, source, room)
    }
}

impl Part for Attrs {
    ghost use Rattle.site_journal.specs.Journal.{of_attrs};
    ghost use Rattle.site_journal.specs.Reading.{AreAttrs};

    ghost is = { λ attrs. AreAttrs attrs };

    ghost text = { λ attrs. of_attrs attrs };

    fn read<S: Source>(
        alloc: Global,
        source: &mut S,
        room: &mut u64,
    ) -> Result<Self, Failure<Unread>> {
        let entries = <Listed<(Text, Value)>>::read(alloc, source, room)?;
        attrs_of(entries)
    }
}

/// The attributes with these entries, where their keys rise in byte order; where they don't, no
/// attributes stand there.
pub(crate) fn attrs_of(entries: Listed<(Text, Value)>) -> Result<Attrs, Failure<Unread>>
    ensures { Sorts are_attrs (λ entries. AreInOrder (map entry_of entries)) entries result }
{
    if are_rising(entries.as_slice()) {
        Ok(Attrs::new(entries.into_vec()))
    } else {
        Err(Failure::Fault(Unread::NotThere))
    }
}
