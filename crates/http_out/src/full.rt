ghost use Rattle.std.specs.Prelude.{◌≡◌, IfOk};
ghost use Rattle.http_out.specs.Full.{full_line};

use itoa::Buffer;
use std::alloc::{AllocError, Global};

/// Room for the word, two numbers and what separates them.
const LINE_BYTES: usize = 56;

/// The line that tells a full journal: its weight, and what of the rest is promised. It has no line
/// end.
pub fn full_line(alloc: Global, weight: u64, promised: u64) -> Result<Vec<u8>, AllocError>
    ensures { IfOk result (λ line. line.items ≡ full_line weight promised) }
{
    let mut line = Vec::with_capacity(alloc, LINE_BYTES)?;
    line.extend_from_slice(b"JournalFull ")?;
    line.extend_from_slice(Buffer::new().format(weight).as_bytes())?;
    line.extend_from_slice(b" ")?;
    line.extend_from_slice(Buffer::new().format(promised).as_bytes())?;
    Ok(line)
}
