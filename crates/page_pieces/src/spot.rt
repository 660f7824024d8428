ghost use Rattle.std.specs.Prelude.{◌≡◌, ◌<◌, ◌≤◌, ◌+◌, ◌-◌, ◌^◌, length, take, IfOk};
ghost use Rattle.page_pieces.specs.Spots.{start, next_spot, spot_after, place_in};

use crate::texts::before_last;
use pg_text::{Path, Place};
use std::alloc::AllocError;

/// A place in the file that is read: its byte, counted from 0, and its line and column, counted
/// from 1.
#[derive(Clone, Copy)]
pub struct Spot {
    pub byte: u32,
    pub line: u32,
    pub column: u32,
}

impl Spot {
    /// The beginning of a file.
    pub fn start() -> Self
        ensures { result ≡ start }
    {
        Spot {
            byte: 0,
            line: 1,
            column: 1,
        }
    }

    // The place behind bytes that begin at this place.
    pub(crate) fn after_bytes(self, bytes: &[u8]) -> Self
        requires byte { self.byte + length bytes.now < 2 ^ 31 }
        requires line { self.line ≤ self.byte + 1 }
        requires column { self.column ≤ self.byte + 1 }
        ensures value { result ≡ spot_after self bytes.now }
        ensures byte { result.byte ≡ self.byte + length bytes.now }
        ensures line { result.line ≤ result.byte + 1 }
        ensures column { result.column ≤ result.byte + 1 }
    {
        let mut spot = self;
        for b in bytes {
            spot = spot.next(*b);
        }
        spot
    }

    /// The place behind what stands before this rest of a text that begins at this place.
    pub fn behind(self, text: &str, rest: &str) -> Self
        requires fits { length rest.now ≤ length text.now }
        requires byte { self.byte + length text.now < 2 ^ 31 }
        requires line { self.line ≤ self.byte + 1 }
        requires column { self.column ≤ self.byte + 1 }
        ensures value { result ≡ spot_after self (take (length text.now - length rest.now) text.now) }
        ensures byte { result.byte + length rest.now ≡ self.byte + length text.now }
        ensures line { result.line ≤ result.byte + 1 }
        ensures column { result.column ≤ result.byte + 1 }
    {
        self.after_bytes(before_last(text, rest.len()))
    }

    // The place behind one byte.
    fn next(self, b: u8) -> Self
        requires byte { self.byte < 2 ^ 31 }
        requires line { self.line ≤ self.byte + 1 }
        requires column { self.column ≤ self.byte + 1 }
        ensures value { result ≡ next_spot self b }
        ensures byte { result.byte ≡ self.byte + 1 }
        ensures line { result.line ≤ result.byte + 1 }
        ensures column { result.column ≤ result.byte + 1 }
    {
        if b == b'\n' {
            return Spot {
                byte: self.byte + 1,
                line: self.line + 1,
                column: 1,
            };
        }
        if b >= 128 && b < 192 {
            return Spot {
                byte: self.byte + 1,
                ..self
            };
        }
        Spot {
            byte: self.byte + 1,
            line: self.line,
            column: self.column + 1,
        }
    }

    /// This place in that file.
    pub fn place(&self, file: &Path) -> Result<Place, AllocError>
        ensures { IfOk result (λ place. place ≡ place_in file.now self.now) }
    {
        Ok(Place {
            file: file.copy()?,
            byte: self.byte,
            line: self.line,
            column: self.column,
        })
    }
}
