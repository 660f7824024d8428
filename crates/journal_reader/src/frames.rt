ghost use Rattle.std.specs.Prelude.{◌≡◌, ◌<◌, IfErr, IfOk};
ghost use Rattle.journal_reader.specs.Frames.{IsFilledBy, IsListStep, IsNext, IsRecordBehind};
ghost use Rattle.journal_reader.specs.Frames.{IsValueOf, ReadsOn};
ghost use Rattle.journal_reader.specs.Reads.{Reads};
ghost use Rattle.journal_reader.specs.Values.{IsValue};
ghost use Rattle.pg_text.specs.declared.failure.Failure.TheVariants.{NoMemory};
ghost use Rattle.site_journal.specs.Journal.{of_value};

use crate::frame::{Frame, Step};
use crate::head::Head;
use crate::part::Part;
use crate::unread::Unread;
use crate::values::attrs_of;
use edges::Source;
use pg_text::{Failure, Listed, Text};
use pg_value::{Record, Value, Values};
use std::alloc::Global;

/// Reads a value of any depth: in a loop, since the stack has no room for each. Memory is taken for
/// the lists and records that are open.
pub(crate) fn value<S: Source>(
    alloc: Global,
    source: &mut S,
    room: &mut u64,
) -> Result<Value, Failure<Unread>>
    ensures { Reads IsValue of_value (S.left source.old) (S.left source.new) room.old room.new
        (S.faults source.old) (S.faults source.new) result }
{
    let mut frames = Vec::new(alloc);
    let mut step = begun(alloc, source, room)?;
    'read: loop {
        step = match step {
            Step::Waits(frame) => {
                frames.push(frame)?;
                begun(alloc, source, room)?
            }
            Step::Whole(value) => {
                let Some(frame) = frames.pop() else {
                    return Ok(value);
                };
                filled(alloc, source, room, frame, value)?
            }
        };
    }
}

// Reads the value that stands next, up to the first that stands in it.
fn begun<S: Source>(alloc: Global, source: &mut S, room: &mut u64) -> Result<Step, Failure<Unread>>
    ensures read { ReadsOn IsValueOf IsNext (S.left source.old) (S.left source.new) room.old room.new
        (S.faults source.old) (S.faults source.new) result }
    ensures falls { IfOk result (λ _. room.new < room.old) }
{
    match Head::read(alloc, source, room)? {
        Head::Plain(value) => Ok(Step::Whole(value)),
        Head::List(count) => list_step(Listed::empty(alloc), count),
        Head::Record(count) => record_step(alloc, source, room, Listed::empty(alloc), count),
    }
}

// Puts the value into the list or record, and reads up to the next.
fn filled<S: Source>(
    alloc: Global,
    source: &mut S,
    room: &mut u64,
    frame: Frame,
    value: Value,
) -> Result<Step, Failure<Unread>>
    ensures { ReadsOn (IsFilledBy frame value) IsNext (S.left source.old) (S.left source.new)
        room.old room.new (S.faults source.old) (S.faults source.new) result }
{
    match frame {
        Frame::Items { mut done, left } => {
            done.push(value)?;
            list_step(done, left)
        }
        Frame::Entries {
            mut done,
            key,
            left,
        } => {
            done.push((key, value))?;
            record_step(alloc, source, room, done, left)
        }
    }
}

// A list of these items, with so many left to come.
fn list_step(done: Listed<Value>, left: u64) -> Result<Step, Failure<Unread>>
    ensures ok { IfOk result (IsListStep done left) }
    ensures err { IfErr result (λ failure. failure ≡ NoMemory) }
{
    match left.checked_sub(1) {
        Some(left) => Ok(Step::Waits(Frame::Items { done, left })),
        None => Ok(Step::Whole(Value::List(Values::new(done.into_vec())?))),
    }
}

// Reads on in a record of these entries, with so many left to come: up to the end of the next key.
fn record_step<S: Source>(
    alloc: Global,
    source: &mut S,
    room: &mut u64,
    done: Listed<(Text, Value)>,
    left: u64,
) -> Result<Step, Failure<Unread>>
    ensures { ReadsOn (IsRecordBehind done left) IsNext (S.left source.old) (S.left source.new)
        room.old room.new (S.faults source.old) (S.faults source.new) result }
{
    match left.checked_sub(1) {
        Some(left) => {
            let key = Text::read(alloc, source, room)?;
            Ok(Step::Waits(Frame::Entries { done, key, left }))
        }
        None => {
            let entries = attrs_of(done)?;
            Ok(Step::Whole(Value::Rec(Record::new(entries)?)))
        }
    }
}
