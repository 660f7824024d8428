use crate::part::Part;
use crate::unread::Unread;
use edges::Source;
use pg_text::{Failure, Text};
use pg_value::Value;
use std::alloc::Global;

/// How a value begins.
#[derive(Drop)]
pub(crate) enum Head {
    /// A value that is no list and no record, whole.
    Plain(Value),
    /// A list of so many items.
    List(u64),
    /// A record of so many entries.
    Record(u64),
}

impl Part for Head {
    ghost use Rattle.journal_reader.specs.Frames.{IsHead, of_head};

    ghost is = { λ head. IsHead head };

    ghost text = { λ head. of_head head };

    fn read<S: Source>(
        alloc: Global,
        source: &mut S,
        room: &mut u64,
    ) -> Result<Self, Failure<Unread>> {
        match u8::read(alloc, source, room)? {
            0 => Ok(Head::Plain(Value::Null)),
            1 => Ok(Head::Plain(Value::Bool(bool::read(alloc, source, room)?))),
            2 => Ok(Head::Plain(Value::Int(i64::read(alloc, source, room)?))),
            3 => Ok(Head::Plain(Value::Text(Text::read(alloc, source, room)?))),
            4 => Ok(Head::List(u64::read(alloc, source, room)?)),
            5 => Ok(Head::Record(u64::read(alloc, source, room)?)),
            _ => Err(Failure::Fault(Unread::NotThere)),
        }
    }
}
