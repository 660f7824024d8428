// Plain answers to requests.
ghost use Rattle.std.specs.Prelude.{◌≡◌, ◌≤◌};
ghost use Rattle.conversation.specs.Told.{IsTold};
ghost use Rattle.edges.specs.Faults.{Rose};
ghost use Rattle.http_out.specs.Methods.{shows_body};
ghost use Rattle.http_out.specs.Response.{plain};

use crate::desk::Outcome;
use crate::methods::shows_body;
use edges::Sink;
use http_in::Request;
use http_out::{Status, tell_plain};
use std::alloc::{AllocError, Global};

/// Gives a request a plain answer of one line.
pub fn tell<K: Sink>(
    alloc: Global,
    request: &Request,
    close: bool,
    status: Status,
    line: &[u8],
    sink: &mut K,
) -> Outcome
    ensures told { IsTold (plain status close line.now (shows_body request.now.method))
        (K.taken sink.old) (K.taken sink.new) result }
    ensures later { K.faults sink.old ≤ K.faults sink.new }
    ensures failed { result ≡ Outcome.WriteFault → Rose (K.faults sink.old) (K.faults sink.new) }
{
    let shown = shows_body(request);
    match tell_plain(alloc, sink, status, close, line, shown) {
        Ok(false) => Outcome::Whole,
        Ok(true) => Outcome::WriteFault,
        Err(AllocError) => Outcome::NoMemory,
    }
}
