ghost use Rattle.pass_course.specs.Course.{IsIdle};

use crate::request::request;
use compiled_pages::Made;
use conversation::Outcome;
use dispatch::respond;
use edges::{Ledger, MemClock, MemSink, MemSource, Sink, Steps};
use pages_talk::{Role, talk};
use site_words::Port;
use std::alloc::Global;
use std::test::Fail;

/// A request in short: its method, its path and the id of its session, which is empty where there
/// is none.
pub type Asked<'a> = (&'a str, &'a str, &'a str);

/// What comes of a request over this sink.
pub fn ask<Q: Port<Made>, K: Sink, L: Ledger>(
    alloc: Global,
    port: &mut Q,
    asked: Asked<'_>,
    sink: &mut K,
    clock: &mut MemClock,
    steps: &mut Steps<L>,
) -> Result<Outcome, Fail>
    requires { IsIdle (Q.opening port.old) (Q.pass port.old) (Q.seen port.old) }
    ensures { IsIdle (Q.opening port.new) (Q.pass port.new) (Q.seen port.new) }
{
    let (method, path, cookie) = asked;
    let request = request(alloc, method, path, cookie)?;
    Ok(respond(alloc, port, &request, false, sink, clock, steps))
}

/// How a reader's connection over this port ends that brings this text, and what it is answered.
pub fn connect<Q: Port<Made>, L: Ledger>(
    alloc: Global,
    port: &mut Q,
    text: &str,
    clock: &mut MemClock,
    steps: &mut Steps<L>,
) -> Result<String, Fail>
    requires { IsIdle (Q.opening port.old) (Q.pass port.old) (Q.seen port.old) }
{
    let mut source = MemSource::new(text.as_bytes().to_vec(alloc)?, 4_096, Vec::new(alloc));
    let mut sink = MemSink::new(alloc, Vec::new(alloc));
    let ended = talk(
        alloc,
        port,
        Role::Reader,
        &mut source,
        &mut sink,
        clock,
        steps,
    );
    let answers = str::from_utf8(sink.taken()).unwrap_or("no text");
    Ok(format!(in alloc; "{ended:?} {answers}")?)
}
