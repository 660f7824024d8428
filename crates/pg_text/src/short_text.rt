ghost use Rattle.std.specs.Prelude.{◌≡◌, ◌↔◌, ◌≤◌, length, IsSome, IfSome};

use std::marker::Model;
use std::str;

// The most bytes of a text that lies in its own value.
pub(crate) const SHORT_BYTES: usize = 14;

// A text of at most 14 bytes, which lie in the value itself: a copy takes no memory, and meets no
// other copy. Contracts see the list of its bytes.
#[derive(Drop)]
pub(crate) struct ShortText {
    len: u8,
    bytes: [u8; SHORT_BYTES],
}

impl Model for ShortText {
    ghost use Rattle.std.specs.Prelude.{◌≡◌, ◌≤◌, List, ℕ, length, take, IsUtf8};

    ghost Value = { List ℕ };

    ghost view = { λ s. take s.len s.bytes };

    ghost invariant = { λ s. (s.len ≤ 14) × (length s.bytes ≡ 14) × ∥ IsUtf8 (take s.len s.bytes) ∥₁ };
}

impl ShortText {
    // A copy of the text, where it is short enough.
    pub(crate) fn of(text: &str) -> Option<Self>
        ensures room { IsSome result ↔ (length text.now ≤ 14) }
        ensures same { IfSome result (λ copy. copy ≡ text.now) }
    {
        let len = text.len();
        if len > SHORT_BYTES {
            return None;
        }
        let mut bytes = [0; SHORT_BYTES];
        bytes[..len].copy_from_slice(text.as_bytes());
        Some(ShortText {
            len: len as u8,
            bytes,
        })
    }

    // An equal text.
    pub(crate) fn copy(&self) -> Self
        ensures { result ≡ self.now }
    {
        ShortText {
            len: self.len,
            bytes: self.bytes,
        }
    }

    pub(crate) fn as_str(&self) -> &str
        ensures { result.now ≡ self.now }
    {
        unsafe { str::from_utf8_unchecked(&self.bytes[..self.len as usize]) }
    }
}
