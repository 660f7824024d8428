ghost use Rattle.std.specs.Prelude.{◌≡◌, ◌≤◌, ◌+◌, ◌<◌, length, IfSome};
ghost use Rattle.std.specs.Option.{option_map};
ghost use Rattle.page_pieces.specs.Names.{is_white, is_name_start, is_name_byte, white_len};
ghost use Rattle.page_pieces.specs.Names.{name_len, behind_white};
ghost use Rattle.page_pieces.specs.Marks.{name_at, tag_name};
ghost use Rattle.std.specs.List.{prefix_len};

use crate::texts::after;

fn is_white(b: u8) -> bool
    ensures { result ≡ is_white b }
{
    b == b' ' || b == b'\t' || b == b'\r' || b == b'\n'
}

fn is_name_start(b: u8) -> bool
    ensures { result ≡ is_name_start b }
{
    b.is_ascii_alphabetic() || b == b'_'
}

fn is_name_byte(b: u8) -> bool
    ensures { result ≡ is_name_byte b }
{
    b.is_ascii_alphanumeric() || b == b'_' || b == b'-' || b == b'.'
}

// How many bytes at the front are white space.
pub(crate) fn white_len(text: &str) -> usize
    ensures value { result ≡ white_len text.now }
    ensures within { result ≤ length text.now }
{
    text.as_bytes().iter().take_while(|b| is_white(**b)).count()
}

/// The text without the white space at its front.
pub fn behind_white(text: &str) -> &str
    ensures value { result.now ≡ behind_white text.now }
    ensures within { length result.now + white_len text.now ≡ length text.now }
{
    text.split_at(white_len(text)).1
}

// How many bytes at the front may stand in a name behind its first byte.
fn name_bytes(text: &[u8]) -> usize
    ensures value { result ≡ prefix_len is_name_byte text.now }
    ensures within { result ≤ length text.now }
{
    text.iter().take_while(|b| is_name_byte(**b)).count()
}

// How many bytes at the front are a name: none where no name stands there.
fn name_len(text: &[u8]) -> usize
    ensures value { result ≡ name_len text.now }
    ensures within { result ≤ length text.now }
{
    match text.split_first() {
        Some((b, rest)) if is_name_start(*b) => 1 + name_bytes(rest),
        _ => 0,
    }
}

// The name at the front of a text, and what follows it.
pub(crate) fn name_at(text: &str) -> Option<(&str, &str)>
    ensures value { option_map (λ x. (x.0.now, x.1.now)) result ≡ name_at text.now }
    ensures within { IfSome result (λ x. length x.1.now < length text.now) }
{
    let len = name_len(text.as_bytes());
    if len == 0 {
        return None;
    }
    Some(text.split_at(len))
}

/// A prefix and a name with a colon between them, and what follows them.
#[derive(Clone, Copy)]
pub struct TagName<'a> {
    pub prefix: &'a str,
    pub name: &'a str,
    pub rest: &'a str,
}

/// The prefix and the name at the front of a text.
#[tactic(auto, unfolding(crate::specs::Marks::tag_name))]
pub fn tag_name(text: &str) -> Option<TagName<'_>>
    ensures value { option_map (λ t. record { prefix = t.prefix.now; name = t.name.now; rest = t.rest.now })
        result ≡ tag_name text.now }
    ensures within { IfSome result (λ t. length t.rest.now < length text.now) }
{
    let (prefix, rest) = name_at(text)?;
    let rest = after(":", rest)?;
    let (name, rest) = name_at(rest)?;
    Some(TagName { prefix, name, rest })
}
