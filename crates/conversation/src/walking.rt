ghost use Rattle.std.specs.Prelude.{◌≡◌, ◌≢◌, ◌≤◌, ◌<◌, ◌+◌, ℕ, false};
ghost use Rattle.edges.specs.Faults.{Rose};
ghost use Rattle.http_in.specs.declared.fault.HttpFault.{HttpFault};
ghost use Rattle.conversation.specs.Conversation.{Tells, closes};
ghost use Rattle.conversation.specs.Refusal.{IsShown};

use crate::desk::{Desk, Outcome};
use crate::ended::Ended;
use crate::limits::MAX_REQUESTS;
use crate::refusing::refuse;
use edges::{Sink, Source};
use http_in::{HttpFault, Request, Rest, read_request};
use pg_text::Failure;
use std::alloc::Global;

/// Has the requests of one connection answered, each before it reads the next.
pub fn walk<D: Desk, S: Source, K: Sink>(
    alloc: Global,
    desk: &mut D,
    port: &mut D::Port,
    clock: &mut D::Clock,
    count: &mut D::Count,
    source: &mut S,
    sink: &mut K,
) -> Ended
    requires ready { D.ready 0 desk.old port.old clock.old count.old }
    ensures ready { (number : ℕ) × (number ≤ MAX_REQUESTS) × D.ready number desk.new port.new clock.new
        count.new }
    ensures world { D.world desk.new port.new clock.new count.new ≡ D.world desk.old port.old clock.old count.old }

    // The sink took the responses to the requests that stand in the bytes that came, and nothing
    // else.
    ensures talk { Tells (D.serves (D.world desk.old port.old clock.old count.old))
        (D.starves (D.world desk.old port.old clock.old count.old))
        (D.state desk.old port.old clock.old count.old) (D.state desk.new port.new clock.new count.new)
        (S.left source.old) (S.left source.new) (K.faults sink.old) (K.faults sink.new) (K.taken sink.old)
        (K.taken sink.new) result }
    ensures shown { (fault : HttpFault) → result ≡ Ended.Refused fault → IsShown fault }

    // A fault of the outside is told only where it was counted.
    ensures read { result ≡ Ended.ReadFault → Rose (S.faults source.old) (S.faults source.new) }
    ensures write { result ≡ Ended.WriteFault → Rose (K.faults sink.old) (K.faults sink.new) }
    ensures unfailing { S.unfailing source.old → (result ≢ Ended.ReadFault) × S.unfailing source.new }
{
    let mut rest = Rest::new(alloc);
    let mut number = 0;
    'requests: loop {
        let request = match read_request(alloc, source, &mut rest) {
            Ok(Some(request)) => request,
            Ok(None) => return Ended::Done,
            Err(Failure::NoMemory) => return Ended::NoMemory,
            Err(Failure::Fault(fault)) => return refuse(alloc, fault, sink),
        };
        let last = closes(number, &request);
        match desk.serve(alloc, port, clock, count, request, number, last, sink) {
            Outcome::Whole => {}
            Outcome::Broken => return Ended::Done,
            Outcome::WriteFault => return Ended::WriteFault,
            Outcome::NoMemory => return Ended::NoMemory,
        }
        if last {
            return Ended::Done;
        }
        number += 1;
    }
}

// Whether the connection closes after a request, so many having come before it.
#[tactic(auto, unfolding(crate::specs::Conversation::closes))]
fn closes(number: u64, request: &Request) -> bool
    requires { number < MAX_REQUESTS }
    ensures value { result ≡ closes number request.now }
    ensures more { result ≡ false → number + 1 < MAX_REQUESTS }
{
    request.close || number + 1 == MAX_REQUESTS
}
