use crate::acts::act;
use crate::part::Part;
use crate::unread::Unread;
use edges::Source;
use pg_text::Failure;
use site_words::Entry;
use std::alloc::Global;

impl Part for Entry {
    ghost use Rattle.site_journal.specs.Journal.{of_entry};
    ghost use Rattle.site_journal.specs.Reading.{IsEntry};

    ghost is = { λ entry. IsEntry entry };

    ghost text = { λ entry. of_entry entry };

    fn read<S: Source>(
        alloc: Global,
        source: &mut S,
        room: &mut u64,
    ) -> Result<Self, Failure<Unread>> {
        let head = <(u8, u8)>::read(alloc, source, room)?;
        let act = act(alloc, source, room, head.1)?;
        Ok(Entry {
            pass: head.0,
            op: act.0,
            reply: act.1,
        })
    }
}
