ghost use Rattle.std.specs.Prelude.{◌≡◌, ◌≤◌, ◌++◌, ℕ, List, true, codes};
ghost use Rattle.std.specs.declared.option.Option.{Option};
ghost use Rattle.edges.specs.Faults.{Rose};
ghost use Rattle.http_out.specs.Response.{no_memory};
ghost use Rattle.http_out.specs.Sent.{Sent};

use crate::sending::write;
use edges::Sink;

/// Writes the plain answer that memory ran out, and takes no memory.
pub fn write_no_memory<K: Sink>(sink: &mut K, failed: &mut bool, close: bool, shown: bool)
    ensures sent { (old : Option (List ℕ)) (text : List ℕ) →
        Sent old (K.taken sink.old) text failed.old →
        Sent old (K.taken sink.new) (text ++ no_memory close shown) failed.new }
    ensures over { failed.old ≡ true → (sink.new ≡ sink.old) × (failed.new ≡ true) }
    ensures later { K.faults sink.old ≤ K.faults sink.new }
    ensures rose { (before : ℕ) → before ≤ K.faults sink.old →
        (failed.old ≡ true → Rose before (K.faults sink.old)) → failed.new ≡ true →
        Rose before (K.faults sink.new) }
{
    write(sink, failed, no_memory_text(close, shown));
}

// The bytes of that answer.
fn no_memory_text(close: bool, shown: bool) -> &'static [u8]
    ensures { result.now ≡ no_memory close shown }
{
    match (close, shown) {
        (false, false) =>
            b"HTTP/1.1 503 Service Unavailable\r\nContent-Type: text/plain;charset=UTF-8\r\nContent-Length: 9\r\n\r\n",
        (false, true) =>
            b"HTTP/1.1 503 Service Unavailable\r\nContent-Type: text/plain;charset=UTF-8\r\nContent-Length: 9\r\n\r\nNoMemory\n",
        (true, false) =>
            b"HTTP/1.1 503 Service Unavailable\r\nContent-Type: text/plain;charset=UTF-8\r\nContent-Length: 9\r\nConnection: close\r\n\r\n",
        (true, true) =>
            b"HTTP/1.1 503 Service Unavailable\r\nContent-Type: text/plain;charset=UTF-8\r\nContent-Length: 9\r\nConnection: close\r\n\r\nNoMemory\n",
    }
}
