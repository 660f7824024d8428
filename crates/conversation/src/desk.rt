ghost use Rattle.std.specs.Prelude.{◌≡◌, ◌≤◌, ◌<◌, ◌+◌, ℕ, List, Bool, length};
ghost use Rattle.edges.specs.Faults.{Rose};
ghost use Rattle.http_in.specs.declared.request.Request.{Request as Asked};
ghost use Rattle.conversation.specs.Exchange.{Exchange};
ghost use Rattle.conversation.specs.Served.{Served};

use crate::limits::MAX_REQUESTS;
use edges::Sink;
use http_in::{Request, SESSION_ID_BYTES};
use std::alloc::Global;

/// What the answer to one request came to.
#[derive(Clone, Copy, Debug, PartialEq, Eq)]
pub enum Outcome {
    /// The sink took the whole response.
    Whole,
    /// The sink took all of a response that breaks off unfinished.
    Broken,
    /// The sink failed. The request was run to its end.
    WriteFault,
    /// Memory ran out. Nothing is written but what the desk states.
    NoMemory,
}

/// What answers the requests of a connection, one after the other.
pub trait Desk {
    /// What the requests are answered over. It is lent to each call, as the next two are.
    type Port;

    /// What gives the moments of the requests.
    type Clock;

    /// What counts the work.
    type Count;

    /// What never changes.
    ghost World: { Type 0 };

    /// What a request is answered from, and changes.
    ghost State: { Type 0 };

    ghost world: { Self → Self.Port → Self.Clock → Self.Count → World };

    ghost state: { Self → Self.Port → Self.Clock → Self.Count → State };

    /// What holds between requests, so many having been answered.
    ghost ready: { ℕ → Self → Self.Port → Self.Clock → Self.Count → Type 0 };

    /// The exchange leads from one state to the other; the flag says whether the connection closes
    /// after it.
    ghost serves: { World → Bool → State → Exchange → State → Type 0 };

    /// Memory ran out for the request, which leaves this text in place of a response, and this
    /// state.
    ghost starves: { World → Bool → State → Asked → List ℕ → State → Type 0 };

    /// Answers a request, so many having come before it. The flag says whether the connection
    /// closes after it.
    fn serve<K: Sink>(
        &mut self,
        alloc: Global,
        port: &mut Self::Port,
        clock: &mut Self::Clock,
        count: &mut Self::Count,
        request: Request,
        number: u64,
        close: bool,
        sink: &mut K,
    ) -> Outcome
        requires few { number < MAX_REQUESTS }
        requires cookie { length request.cookie ≤ SESSION_ID_BYTES }
        requires ready { ready number self.old port.old clock.old count.old }
        ensures ready { ready (number + 1) self.new port.new clock.new count.new }
        ensures world { world self.new port.new clock.new count.new ≡ world self.old port.old clock.old count.old }
        ensures served { Served (serves (world self.old port.old clock.old count.old))
            (starves (world self.old port.old clock.old count.old)) close request
            (state self.old port.old clock.old count.old) (state self.new port.new clock.new count.new)
            (K.faults sink.old) (K.faults sink.new) (K.taken sink.old) (K.taken sink.new) result }
        ensures later { K.faults sink.old ≤ K.faults sink.new }
        ensures failed { result ≡ Outcome.WriteFault → Rose (K.faults sink.old) (K.faults sink.new) };
}
