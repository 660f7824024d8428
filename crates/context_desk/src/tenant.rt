ghost use Rattle.std.specs.Prelude.{◌≡◌, ◌≤◌, ◌<◌, List, Bool, length, ℕ};
ghost use Rattle.context_desk.specs.Several.{ServedIn};
ghost use Rattle.conversation.specs.Exchange.{Exchange};
ghost use Rattle.edges.specs.Faults.{Rose};
ghost use Rattle.http_in.specs.declared.request.Request.{Request as Asked};

use conversation::{MAX_REQUESTS, Outcome};
use edges::Sink;
use http_in::{Request, SESSION_ID_BYTES};
use std::alloc::Global;

/// What answers the requests of one context: a desk that tells what it and its port have of their
/// own from what is lent to all contexts.
pub trait Tenant {
    /// What the requests are answered over. It is lent to each call, as the next two are.
    type Port;

    /// What gives the moments of the requests of all contexts.
    type Clock;

    /// What counts the work for all contexts.
    type Count;

    /// What never changes.
    ghost Place: { Type 0 };

    /// What a request is answered from, and changes, of the desk and its port.
    ghost Own: { Type 0 };

    /// The same of the clock and the count.
    ghost Lent: { Type 0 };

    ghost place: { Self → Self.Port → Place };

    ghost own: { Self → Self.Port → Own };

    ghost lent: { Self.Clock → Self.Count → Lent };

    /// What holds between requests.
    ghost ready: { Self → Self.Port → Type 0 };

    /// What an exchange does; the flag says whether the connection closes after it.
    ghost does: { Place → Bool → Own → Lent → Exchange → Own → Lent → Type 0 };

    /// What is left of a request for which memory ran out.
    ghost leaves: { Place → Bool → Own → Lent → Asked → List ℕ → Own → Lent → Type 0 };

    /// Answers a request, so many having come before it on the connection. The flag says whether
    /// that closes after it.
    fn serve<K: Sink>(
        &mut self,
        alloc: Global,
        port: &mut Self::Port,
        clock: &mut Self::Clock,
        count: &mut Self::Count,
        request: Request,
        number: u64,
        close: bool,
        sink: &mut K,
    ) -> Outcome
        requires few { number < MAX_REQUESTS }
        requires cookie { length request.cookie ≤ SESSION_ID_BYTES }
        requires ready { ready self.old port.old }
        ensures ready { ready self.new port.new }
        ensures place { place self.new port.new ≡ place self.old port.old }
        ensures served { ServedIn (does (place self.old port.old)) (leaves (place self.old port.old)) close request
            (own self.old port.old) (lent clock.old count.old) (own self.new port.new) (lent clock.new count.new)
            (K.faults sink.old) (K.faults sink.new) (K.taken sink.old) (K.taken sink.new) result }
        ensures later { K.faults sink.old ≤ K.faults sink.new }
        ensures failed { result ≡ Outcome.WriteFault → Rose (K.faults sink.old) (K.faults sink.new) };
}
