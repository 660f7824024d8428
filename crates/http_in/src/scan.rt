ghost use Rattle.std.specs.Prelude.{◌≡◌, ◌≤◌, length, IfSome};
ghost use Rattle.http_in.specs.HeadEnd.{head_len};
ghost use Rattle.http_in.specs.Scan.{HasLooked};

use crate::head_end::{skip_pairs, through_empty_line};

// How far bytes were looked through for the end of a head, so that none is looked at again when
// more bytes come, or when the same head is asked for once more.
#[derive(Clone, Copy)]
pub enum Scan {
    // So many bytes are CR LF pairs, and at most one stands behind them.
    Pairs(usize),
    // The head has begun, and no empty line begins in so many bytes behind it.
    Head(usize),
}

// How many bytes the empty line has that ends a head. All but one of them may have come already.
const EMPTY_LINE_BYTES: usize = 4;

impl Scan {
    // The length of the head at the front, with the pairs before its first line. Bytes that were
    // looked through before stand there still.
    pub fn head_len(&mut self, bytes: &[u8]) -> Option<usize>
        requires { HasLooked self.old bytes.now }
        ensures value { result ≡ head_len bytes.now }
        ensures within { IfSome result (λ len. len ≤ length bytes.now) }
        ensures looked { HasLooked self.new bytes.now }
    {
        match *self {
            Scan::Pairs(at) => {
                let rest = skip_pairs(&bytes[at..]);
                let begin = bytes.len() - rest.len();
                if rest.len() < 2 {
                    *self = Scan::Pairs(begin);
                    return None;
                }
                self.look_on(bytes, begin)
            }
            Scan::Head(at) => self.look_on(bytes, at),
        }
    }

    // The length of the head at the front, where it has begun and no empty line begins before this
    // place.
    fn look_on(&mut self, bytes: &[u8], at: usize) -> Option<usize>
        requires { HasLooked (Scan.Head at) bytes.now }
        ensures value { result ≡ head_len bytes.now }
        ensures within { IfSome result (λ len. len ≤ length bytes.now) }
        ensures looked { HasLooked self.new bytes.now }
    {
        if let Some(len) = through_empty_line(&bytes[at..]) {
            *self = Scan::Head(at + len - EMPTY_LINE_BYTES);
            return Some(at + len);
        }
        *self = Scan::Head(at.max(bytes.len().saturating_sub(EMPTY_LINE_BYTES - 1)));
        None
    }
}
