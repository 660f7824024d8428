ghost use Rattle.std.specs.Prelude.{◌≡◌, ◌<◌, ◌≤◌, ◌++◌, ℕ, List, true, [], codes, drop, length};
ghost use Rattle.std.specs.Prelude.{false};
ghost use Rattle.std.specs.declared.option.Option.{Option};
ghost use Rattle.std.specs.Fmt.{digit_glyph, digits};
ghost use Rattle.edges.specs.Faults.{Rose};
ghost use Rattle.http_out.specs.Response.{chunk, end_mark};
ghost use Rattle.http_out.specs.Sent.{Sent};

use crate::sending::write;
use edges::Sink;

/// The most digits of a size.
const DIGITS: usize = 16;

/// Room for a size, before the end of its line.
const LINE: [u8; 18] = *b"0000000000000000\r\n";

/// Writes one chunk of a body, and takes no memory. An empty piece would end the body, so a piece
/// isn't empty.
pub fn write_chunk<K: Sink>(sink: &mut K, failed: &mut bool, piece: &[u8])
    requires { 0 < length piece.now }
    ensures sent { (old : Option (List ℕ)) (text : List ℕ) →
        Sent old (K.taken sink.old) text failed.old →
        Sent old (K.taken sink.new) (text ++ chunk piece.now) failed.new }
    ensures over { failed.old ≡ true → (sink.new ≡ sink.old) × (failed.new ≡ true) }
    ensures later { K.faults sink.old ≤ K.faults sink.new }
    ensures rose { (before : ℕ) → before ≤ K.faults sink.old →
        (failed.old ≡ true → Rose before (K.faults sink.old)) → failed.new ≡ true →
        Rose before (K.faults sink.new) }
{
    let mut line = LINE;
    let start = write_size(piece.len(), &mut line);
    write(sink, failed, &line[start..]);
    write(sink, failed, piece);
    write(sink, failed, b"\r\n");
}

/// Writes the end of a body in chunks, and takes no memory.
pub fn write_end<K: Sink>(sink: &mut K, failed: &mut bool)
    ensures sent { (old : Option (List ℕ)) (text : List ℕ) →
        Sent old (K.taken sink.old) text failed.old → Sent old (K.taken sink.new) (text ++ end_mark) failed.new }
    ensures over { failed.old ≡ true → (sink.new ≡ sink.old) × (failed.new ≡ true) }
    ensures later { K.faults sink.old ≤ K.faults sink.new }
    ensures rose { (before : ℕ) → before ≤ K.faults sink.old →
        (failed.old ≡ true → Rose before (K.faults sink.old)) → failed.new ≡ true →
        Rose before (K.faults sink.new) }
{
    write(sink, failed, b"0\r\n\r\n");
}

// Writes a size before the end of its line, and says where it begins.
fn write_size(size: usize, line: &mut [u8]) -> usize
    requires { length line.old ≡ 18 }
    ensures within { result ≤ 16 }
    ensures written { drop result line.new ≡ digits 16 false size ++ drop 16 line.old }
{
    let mut at = DIGITS;
    let mut left = size;
    'digits: loop {
        at -= 1;
        line[at] = digit(left % 16);
        left /= 16;
        if left == 0 {
            return at;
        }
    }
}

// The digit for a number below 16, in lower case.
fn digit(number: usize) -> u8
    requires { number < 16 }
    ensures { result ≡ digit_glyph false number }
{
    if number < 10 {
        b'0' + number as u8
    } else {
        b'a' + (number - 10) as u8
    }
}
