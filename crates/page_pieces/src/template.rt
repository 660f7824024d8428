ghost use Rattle.std.specs.Prelude.{◌≡◌, ◌<◌, ◌≤◌, ◌+◌, ◌==◌, ◌||◌, length, take, drop, None};
ghost use Rattle.page_pieces.specs.Marks.{mark_at};
ghost use Rattle.page_pieces.specs.Pieces.{text_len};

use crate::mark::mark_at;
use crate::setting::Setting;

// Whether a mark may begin with this byte.
fn may_mark(b: u8) -> bool
    ensures { result ≡ ((b == 60) || (b == 92) || (b == 36) || (b == 35)) }
{
    b == b'<' || b == b'\\' || b == b'$' || b == b'#'
}

// How many bytes at the front are template text.
fn text_len(setting: &Setting, text: &str) -> usize
    ensures value { result ≡ text_len setting.now text.now }
    ensures within { result ≤ length text.now }
{
    for (i, b) in text.as_bytes().iter().enumerate() {
        if may_mark(*b) {
            let (_, rest) = text.split_at(i);
            if mark_at(setting, rest).is_some() {
                return i;
            }
        }
    }
    text.len()
}

// The template text at the front, and what follows it.
pub(crate) fn text_at<'a>(setting: &Setting, text: &'a str) -> (&'a str, &'a str)
    ensures front { result.0.now ≡ take (text_len setting.now text.now) text.now }
    ensures rest { result.1.now ≡ drop (text_len setting.now text.now) text.now }
    ensures within { length result.0.now + length result.1.now ≡ length text.now }
    ensures some { mark_at setting.now text.now ≡ None → 0 < length text.now → 0 < length result.0.now }
{
    text.split_at(text_len(setting, text))
}
