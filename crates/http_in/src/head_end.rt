ghost use Rattle.std.specs.Prelude.{◌≡◌, ◌≤◌, length, IfSome};
ghost use Rattle.http_in.specs.HeadEnd.{skip_pairs, through_empty_line, front_of};

use crate::limits::MAX_HEAD_BYTES;
use memchr::memmem;

// What ends a head.
const EMPTY_LINE: &[u8] = b"\r\n\r\n";

// The bytes among which a head has to end.
pub fn front_of(bytes: &[u8]) -> &[u8]
    ensures value { result.now ≡ front_of bytes.now }
    ensures within { (length result.now ≤ MAX_HEAD_BYTES) × (length result.now ≤ length bytes.now) }
{
    &bytes[..MAX_HEAD_BYTES.min(bytes.len())]
}

// The bytes after the CR LF pairs at the front.
pub fn skip_pairs(bytes: &[u8]) -> &[u8]
    ensures value { result.now ≡ skip_pairs bytes.now }
    ensures within { length result.now ≤ length bytes.now }
{
    let mut rest = bytes;
    while let [b'\r', b'\n', after @ ..] = rest {
        rest = after;
    }
    rest
}

// The length of the shortest front that ends with an empty line.
pub fn through_empty_line(bytes: &[u8]) -> Option<usize>
    ensures value { result ≡ through_empty_line bytes.now }
    ensures within { IfSome result (λ len. (4 ≤ len) × (len ≤ length bytes.now)) }
{
    let at = memmem::find(bytes, EMPTY_LINE)?;
    Some(at + EMPTY_LINE.len())
}
