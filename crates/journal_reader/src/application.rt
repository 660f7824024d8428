use crate::part::Part;
use crate::unread::Unread;
use edges::Source;
use pg_text::{Failure, Text};
use pg_value::Value;
use site_words::{AppReply, AppStep};
use std::alloc::Global;

impl Part for AppStep {
    ghost use Rattle.site_journal.specs.Journal.{of_step};
    ghost use Rattle.site_journal.specs.Reading.{IsStep};

    ghost is = { λ step. IsStep step };

    ghost text = { λ step. of_step step };

    fn read<S: Source>(
        alloc: Global,
        source: &mut S,
        room: &mut u64,
    ) -> Result<Self, Failure<Unread>> {
        match u8::read(alloc, source, room)? {
            0 => Ok(AppStep::Get(Text::read(alloc, source, room)?)),
            1 => {
                let parts = <(Text, Value)>::read(alloc, source, room)?;
                Ok(AppStep::Set(parts.0, parts.1))
            }
            2 => Ok(AppStep::Remove(Text::read(alloc, source, room)?)),
            3 => {
                let parts = <(Text, Value)>::read(alloc, source, room)?;
                Ok(AppStep::Ensure(parts.0, parts.1))
            }
            4 => Ok(AppStep::All),
            _ => Err(Failure::Fault(Unread::NotThere)),
        }
    }
}

impl Part for AppReply {
    ghost use Rattle.site_journal.specs.Journal.{of_answer};
    ghost use Rattle.site_journal.specs.Reading.{IsAnswer};

    ghost is = { λ answer. IsAnswer answer };

    ghost text = { λ answer. of_answer answer };

    fn read<S: Source>(
        alloc: Global,
        source: &mut S,
        room: &mut u64,
    ) -> Result<Self, Failure<Unread>> {
        match u8::read(alloc, source, room)? {
            0 => Ok(AppReply::Value(Value::read(alloc, source, room)?)),
            1 => Ok(AppReply::Done),
            2 => Ok(AppReply::Created),
            3 => {
                let weight = u64::read(alloc, source, room)?;
                Ok(AppReply::Large { weight })
            }
            _ => Err(Failure::Fault(Unread::NotThere)),
        }
    }
}
