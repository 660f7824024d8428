use crate::part::Part;
use crate::unread::Unread;
use edges::Source;
use pg_text::{Bytes, Failure};
use site_journal::{Moments, Talk};
use std::alloc::Global;

impl Part for Talk {
    ghost use Rattle.site_journal.specs.Journal.{of_talk};
    ghost use Rattle.site_journal.specs.Reading.{IsTalk};

    ghost is = { λ talk. IsTalk talk };

    ghost text = { λ talk. of_talk talk };

    fn read<S: Source>(
        alloc: Global,
        source: &mut S,
        room: &mut u64,
    ) -> Result<Self, Failure<Unread>> {
        let parts = <(((Bytes, Moments), Bytes), u8)>::read(alloc, source, room)?;
        let (((bytes, moments), answers), ended) = parts;
        Ok(Talk {
            bytes,
            moments,
            answers,
            ended,
        })
    }
}
