ghost use Rattle.std.specs.Prelude.{◌≡◌, ◌≤◌, length};
ghost use Rattle.conversation.specs.Served.{Served};
ghost use Rattle.edges.specs.Faults.{Rose};
ghost use Rattle.http_in.specs.declared.limits.TheConstants.{SESSION_ID_BYTES};
ghost use Rattle.page_answers.specs.Answers.{Answers};
ghost use Rattle.page_answers.specs.Dropped.{Drops};
ghost use Rattle.page_answers.specs.Standing.{standing_of};
ghost use Rattle.compiled_pages.specs.Pages.{needs_at};
ghost use Rattle.pass_course.specs.Course.{IsIdle};
ghost use Rattle.site_words.specs.Answers.{IsSamePort};

use crate::refusing::{full, not_taken};
use crate::serving::serve;
use compiled_pages::Made;
use conversation::{Outcome, shows_body, takes_method};
use edges::{Clock, Ledger, Sink, Steps};
use http_in::Request;
use request_pages::Incoming;
use site_words::{Acted, Port};
use std::alloc::Global;

/// Answers a request that isn't an editor's, and writes its response while its pages run. The flag
/// says whether the connection closes behind it. `steps` counts the bytes that are read to make
/// pages.
pub fn respond<Q: Port<Made>, K: Sink, C: Clock, L: Ledger>(
    alloc: Global,
    port: &mut Q,
    request: &Request,
    close: bool,
    sink: &mut K,
    clock: &mut C,
    steps: &mut Steps<L>,
) -> Outcome
    requires idle { IsIdle (Q.opening port.old) (Q.pass port.old) (Q.seen port.old) }
    requires cookie { length request.now.cookie ≤ SESSION_ID_BYTES }
    ensures idle { IsIdle (Q.opening port.new) (Q.pass port.new) (Q.seen port.new) }
    ensures same { IsSamePort (Q.pass port.old) (Q.pass port.new) (Q.opening port.old) (Q.opening port.new)
        (Q.home port.old) (Q.home port.new) }
    ensures served { Served (λ close old e new. Answers needs_at (Q.opening port.old) (Q.pass port.old)
        e.request close old e.text e.broken new) (λ close old asked text new.
        Drops needs_at (Q.opening port.old) (Q.pass port.old) asked close old text new)
        close request.now (standing_of (Q.seen port.old) (C.moments clock.old) steps.old)
        (standing_of (Q.seen port.new) (C.moments clock.new) steps.new) (K.faults sink.old)
        (K.faults sink.new) (K.taken sink.old) (K.taken sink.new) result }
    ensures later { K.faults sink.old ≤ K.faults sink.new }
    ensures failed { result ≡ Outcome.WriteFault → Rose (K.faults sink.old) (K.faults sink.new) }
{
    port.law();
    if !takes_method(request) {
        return not_taken(alloc, request, close, sink);
    }
    let incoming = Incoming {
        request,
        close,
        shown: shows_body(request),
    };
    let moment = clock.now();
    match port.begin(&request.cookie, moment) {
        Acted::Did(begun) => serve(alloc, port, begun, incoming, sink, steps),
        Acted::Refused(refusal) => full(alloc, &refusal, request, close, sink),
        Acted::NoMemory => Outcome::NoMemory,
    }
}
