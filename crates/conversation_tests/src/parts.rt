ghost use Rattle.std.specs.Prelude.{◌≡◌, if◌then◌else◌};

use conversation::{Desk, Outcome};
use edges::Sink;
use http_in::Request;
use http_out::write;
use std::alloc::Global;

/// Answers each request with its target in three parts. At `/broken` the response breaks off behind
/// the second, and at `/starved` memory runs out there.
#[derive(Drop)]
pub struct Parts;

impl Desk for Parts {
    type Port = u8;

    type Clock = u8;

    type Count = u8;

    ghost World = { Unit {0} };

    ghost State = { Unit {0} };

    ghost world = { λ desk port clock count. tt };

    ghost state = { λ desk port clock count. tt };

    ghost ready = { λ number desk port clock count. Unit {0} };

    ghost serves = { λ world close old e new. Unit {0} };

    ghost starves = { λ world close old request text new. Unit {0} };

    fn serve<K: Sink>(
        &mut self,
        _alloc: Global,
        _port: &mut u8,
        _clock: &mut u8,
        _count: &mut u8,
        request: Request,
        _number: u64,
        _close: bool,
        sink: &mut K,
    ) -> Outcome {
        let mut failed = false;
        write(sink, &mut failed, b"<");
        write(sink, &mut failed, request.target.as_bytes());
        if request.target.as_str() == "/starved" {
            return Outcome::NoMemory;
        }
        if request.target.as_str() == "/broken" {
            return unless(failed, Outcome::Broken);
        }
        write(sink, &mut failed, b">");
        unless(failed, Outcome::Whole)
    }
}

// The outcome, unless the sink failed.
fn unless(failed: bool, outcome: Outcome) -> Outcome
    ensures { result ≡ (if failed then Outcome.WriteFault else outcome) }
{
    if failed { Outcome::WriteFault } else { outcome }
}
