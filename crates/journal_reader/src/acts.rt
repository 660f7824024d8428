ghost use Rattle.journal_reader.specs.Acts.{IsActOf, of_act};
ghost use Rattle.journal_reader.specs.Reads.{Reads};

use crate::part::Part;
use crate::unread::Unread;
use edges::Source;
use pg_text::{Failure, Names, Path, Text};
use pg_value::Attrs;
use site_words::{AppReply, AppStep, Op, Reply};
use source_tree::Edits;
use std::alloc::Global;

/// Reads an operation of this kind, with its reply.
pub(crate) fn act<S: Source>(
    alloc: Global,
    source: &mut S,
    room: &mut u64,
    kind: u8,
) -> Result<(Op, Reply), Failure<Unread>>
    ensures { Reads (IsActOf kind) of_act (S.left source.old) (S.left source.new) room.old room.new
        (S.faults source.old) (S.faults source.new) result }
{
    match kind {
        1 => publish(alloc, source, room),
        2 => begin(alloc, source, room),
        3 => app(alloc, source, room),
        4 => fresh(alloc, source, room),
        5 => fetch(alloc, source, room),
        6 => offer(alloc, source, room),
        7 => end(alloc, source, room),
        8 => abandon(alloc, source, room),
        9 => snapshot(alloc, source, room),
        10 => Ok((Op::Roll, Reply::Rolled)),
        _ => Err(Failure::Fault(Unread::NotThere)),
    }
}

fn publish<S: Source>(
    alloc: Global,
    source: &mut S,
    room: &mut u64,
) -> Result<(Op, Reply), Failure<Unread>>
    ensures { Reads (IsActOf 1) of_act (S.left source.old) (S.left source.new) room.old room.new
        (S.faults source.old) (S.faults source.new) result }
{
    let parts = <((Option<u64>, Edits), (u64, Names))>::read(alloc, source, room)?;
    let ((base, edits), (version, dirty)) = parts;
    Ok((
        Op::Publish { base, edits },
        Reply::Published { version, dirty },
    ))
}

fn begin<S: Source>(
    alloc: Global,
    source: &mut S,
    room: &mut u64,
) -> Result<(Op, Reply), Failure<Unread>>
    ensures { Reads (IsActOf 2) of_act (S.left source.old) (S.left source.new) room.old room.new
        (S.faults source.old) (S.faults source.new) result }
{
    let parts = <((Text, u64), ((u64, u64), Option<u64>))>::read(alloc, source, room)?;
    let ((cookie, moment), ((request, version), session)) = parts;
    Ok((
        Op::Begin { cookie, moment },
        Reply::Begun {
            request,
            version,
            session,
        },
    ))
}

fn app<S: Source>(
    alloc: Global,
    source: &mut S,
    room: &mut u64,
) -> Result<(Op, Reply), Failure<Unread>>
    ensures { Reads (IsActOf 3) of_act (S.left source.old) (S.left source.new) room.old room.new
        (S.faults source.old) (S.faults source.new) result }
{
    let parts = <((u64, AppStep), AppReply)>::read(alloc, source, room)?;
    let ((request, step), answer) = parts;
    Ok((Op::App { request, step }, Reply::App(answer)))
}

fn fresh<S: Source>(
    alloc: Global,
    source: &mut S,
    room: &mut u64,
) -> Result<(Op, Reply), Failure<Unread>>
    ensures { Reads (IsActOf 4) of_act (S.left source.old) (S.left source.new) room.old room.new
        (S.faults source.old) (S.faults source.new) result }
{
    let parts = <(u64, u64)>::read(alloc, source, room)?;
    let (request, session) = parts;
    Ok((Op::Fresh { request }, Reply::Made { session }))
}

fn fetch<S: Source>(
    alloc: Global,
    source: &mut S,
    room: &mut u64,
) -> Result<(Op, Reply), Failure<Unread>>
    ensures { Reads (IsActOf 5) of_act (S.left source.old) (S.left source.new) room.old room.new
        (S.faults source.old) (S.faults source.new) result }
{
    let parts = <((u64, Path), bool)>::read(alloc, source, room)?;
    let ((request, path), hit) = parts;
    Ok((Op::Fetch { request, path }, Reply::Fetched { hit }))
}

fn offer<S: Source>(
    alloc: Global,
    source: &mut S,
    room: &mut u64,
) -> Result<(Op, Reply), Failure<Unread>>
    ensures { Reads (IsActOf 6) of_act (S.left source.old) (S.left source.new) room.old room.new
        (S.faults source.old) (S.faults source.new) result }
{
    let parts = <((u64, Path), bool)>::read(alloc, source, room)?;
    let ((request, path), kept) = parts;
    Ok((Op::Offer { request, path }, Reply::Offered { kept }))
}

fn end<S: Source>(
    alloc: Global,
    source: &mut S,
    room: &mut u64,
) -> Result<(Op, Reply), Failure<Unread>>
    ensures { Reads (IsActOf 7) of_act (S.left source.old) (S.left source.new) room.old room.new
        (S.faults source.old) (S.faults source.new) result }
{
    let parts = <(u64, Attrs)>::read(alloc, source, room)?;
    let (request, attrs) = parts;
    Ok((Op::End { request, attrs }, Reply::Ended))
}

fn abandon<S: Source>(
    alloc: Global,
    source: &mut S,
    room: &mut u64,
) -> Result<(Op, Reply), Failure<Unread>>
    ensures { Reads (IsActOf 8) of_act (S.left source.old) (S.left source.new) room.old room.new
        (S.faults source.old) (S.faults source.new) result }
{
    let request = u64::read(alloc, source, room)?;
    Ok((Op::Abandon { request }, Reply::Dropped))
}

fn snapshot<S: Source>(
    alloc: Global,
    source: &mut S,
    room: &mut u64,
) -> Result<(Op, Reply), Failure<Unread>>
    ensures { Reads (IsActOf 9) of_act (S.left source.old) (S.left source.new) room.old room.new
        (S.faults source.old) (S.faults source.new) result }
{
    let parts = <(Text, (u64, Option<u64>))>::read(alloc, source, room)?;
    let (cookie, (version, session)) = parts;
    Ok((Op::Snapshot { cookie }, Reply::Snapped { version, session }))
}
