ghost use Rattle.std.specs.Prelude.{◌≡◌, ◌≤◌, ◌<◌, ℕ, List, false, length, IfOk, OnErr, IsTrue};
ghost use Rattle.std.specs.Io.KnownBytes.{Consumes, IsAtEnd};
ghost use Rattle.edges.specs.Faults.{Rose};
ghost use Rattle.whole_input.specs.Come.{Grows, HasCome, IfFailed};

use edges::{Failed, Source};
use pg_text::Failure;
use std::alloc::Global;

/// The most bytes of one read.
const MAX_PIECE_BYTES: usize = 65_536;

/// Reads to the end of the input, or until it has more bytes than these.
pub fn read_up_to<S: Source>(
    alloc: Global,
    source: &mut S,
    most: usize,
) -> Result<Vec<u8>, Failure<Failed>>
    ensures come { IfOk result (λ bytes. HasCome most (S.left source.old) (S.left source.new) bytes.items) }
    ensures stopped { OnErr result ((came : List ℕ) × Consumes (S.left source.old) (S.left source.new) came) }
    ensures failed { IfFailed result (Rose (S.faults source.old) (S.faults source.new)) }
    ensures later { S.faults source.old ≤ S.faults source.new }
    ensures unfailing { S.unfailing source.old → IfFailed result ⊥ × S.unfailing source.new }
{
    let mut bytes = Vec::new(alloc);
    'fill: while bytes.len() <= most {
        if !fill(source, &mut bytes)? {
            break;
        }
    }
    Ok(bytes)
}

// Reads the next piece. The answer says whether any came: if none did, the input has ended.
fn fill<S: Source>(source: &mut S, bytes: &mut Vec<u8>) -> Result<bool, Failure<Failed>>
    ensures grows { Grows (S.left source.old) (S.left source.new) bytes.old.items bytes.new.items }
    ensures more { IfOk result (λ came. IsTrue came → length bytes.old.items < length bytes.new.items) }
    ensures ended { IfOk result (λ came. came ≡ false → IsAtEnd (S.left source.new)) }
    ensures failed { IfFailed result (Rose (S.faults source.old) (S.faults source.new)) }
    ensures later { S.faults source.old ≤ S.faults source.new }
    ensures unfailing { S.unfailing source.old → IfFailed result ⊥ × S.unfailing source.new }
{
    let mut piece = [0; MAX_PIECE_BYTES];
    bytes.reserve(MAX_PIECE_BYTES)?;
    let Ok(count) = source.read(&mut piece) else {
        return Err(Failure::Fault(Failed));
    };
    bytes.extend_from_slice(&piece[..count])?;
    Ok(count > 0)
}
