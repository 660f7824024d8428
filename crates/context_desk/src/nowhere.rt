ghost use Rattle.std.specs.Prelude.{◌≡◌, ◌≤◌};
ghost use Rattle.context_desk.specs.Several.{nothing_found};
ghost use Rattle.conversation.specs.Told.{IsTold};
ghost use Rattle.edges.specs.Faults.{Rose};

use conversation::{Outcome, tell};
use edges::Sink;
use http_in::Request;
use http_out::Status;
use std::alloc::Global;

/// Tells that nothing is found where no context is named.
pub(crate) fn find_nothing<K: Sink>(
    alloc: Global,
    request: &Request,
    close: bool,
    sink: &mut K,
) -> Outcome
    ensures told { IsTold (nothing_found close request.now) (K.taken sink.old) (K.taken sink.new) result }
    ensures later { K.faults sink.old ≤ K.faults sink.new }
    ensures failed { result ≡ Outcome.WriteFault → Rose (K.faults sink.old) (K.faults sink.new) }
{
    tell(alloc, request, close, Status::NotFound, b"NotFound", sink)
}
