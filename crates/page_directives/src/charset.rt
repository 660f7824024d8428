ghost use Rattle.std.specs.Prelude.{◌≡◌, ◌+◌, ◌++◌, ◌∷◌, ◌≤◌, length, nat_eq, codes, IfOk, IfSome};
ghost use Rattle.std.specs.Str.{str_to_ascii_lowercase};
ghost use Rattle.std.specs.List.{list_any, prefix_len};
ghost use Rattle.std.specs.Option.{option_and_then, option_map, unwrap_or};
ghost use Rattle.page_directives.specs.ContentType.{content_type, is_token_byte, is_utf_8};
ghost use Rattle.page_directives.specs.ContentType.{may_follow, token_at, with_first};

use page_pieces::{after, behind_white};
use pg_text::Text;
use std::alloc::{AllocError, Global};

// Whether a byte is one of the marks of a token.
fn is_token_mark(b: u8) -> bool
    ensures { result ≡ list_any (nat_eq b) (codes "!#$%&'*+-.^_`|~") }
{
    b"!#$%&'*+-.^_`|~".iter().any(|mark| b == *mark)
}

// Whether a byte may stand in a token of HTTP: a letter, a digit or one of the marks.
fn is_token_byte(b: u8) -> bool
    ensures { result ≡ is_token_byte b }
{
    b.is_ascii_alphabetic() || b.is_ascii_digit() || is_token_mark(b)
}

// How many bytes at the front are a token.
fn token_len(text: &[u8]) -> usize
    ensures value { result ≡ prefix_len is_token_byte text.now }
    ensures within { result ≤ length text.now }
{
    text.iter().take_while(|b| is_token_byte(**b)).count()
}

// The token at the front of a text, and what follows it.
fn token_at(text: &str) -> Option<(&str, &str)>
    ensures value { option_map (λ x. (x.0.now, x.1.now)) result ≡ token_at text.now }
    ensures within { IfSome result (λ x. length x.0.now + length x.1.now ≡ length text.now) }
{
    let len = token_len(text.as_bytes());
    if len == 0 {
        return None;
    }
    Some(text.split_at(len))
}

// The two tokens at the front of a text with a slash between them, and what follows them.
fn tokens_at(text: &str) -> Option<(&str, &str, &str)>
    ensures { option_map (λ x. (x.0.now ++ 47 ∷ x.1.now, x.2.now)) result ≡ with_first (token_at text.now) }
{
    let (first, rest) = token_at(text)?;
    let (second, rest) = token_at(after("/", rest)?)?;
    Some((first, second, rest))
}

// Whether a text is the charset UTF-8, perhaps in quotes.
fn is_utf_8(text: &str) -> bool
    ensures { result ≡ is_utf_8 (str_to_ascii_lowercase text.now) }
{
    text.eq_ignore_ascii_case("charset=utf-8") || text.eq_ignore_ascii_case("charset=\"utf-8\"")
}

// Whether a text may follow the two tokens.
fn may_follow(text: &str) -> bool
    ensures { result ≡ may_follow text.now }
{
    if text.is_empty() {
        return true;
    }
    match after(";", text) {
        Some(parameter) => is_utf_8(behind_white(parameter)),
        None => false,
    }
}

// The two tokens of a content type.
#[tactic(auto, unfolding(crate::specs::ContentType::content_type))]
pub(crate) fn tokens(text: &str) -> Option<(&str, &str)>
    ensures { option_map (λ x. x.0.now ++ 47 ∷ x.1.now ++ codes ";charset=UTF-8") result ≡ content_type text.now }
{
    match tokens_at(text) {
        Some((first, second, rest)) if may_follow(rest) => Some((first, second)),
        _ => None,
    }
}

// A content type as it is sent.
fn sent_type(alloc: Global, first: &str, second: &str) -> Result<Text, AllocError>
    ensures { IfOk result (λ text. text ≡ first.now ++ 47 ∷ second.now ++ codes ";charset=UTF-8") }
{
    let mut text = Text::copy_of(alloc, first)?;
    text.push_str("/")?;
    text.push_str(second)?;
    text.push_str(";charset=UTF-8")?;
    Ok(text)
}

// A content type as it is sent, or else the one that a page has by itself.
pub(crate) fn content_type(alloc: Global, given: Option<&str>) -> Result<Text, AllocError>
    ensures { IfOk result (λ text. text ≡ unwrap_or
        (option_and_then content_type (option_map (λ given. given.now) given.entry))
        (codes "text/html;charset=UTF-8")) }
{
    let tokens = match given {
        Some(given) => tokens(given),
        None => None,
    };
    match tokens {
        Some((first, second)) => sent_type(alloc, first, second),
        None => Text::copy_of(alloc, "text/html;charset=UTF-8"),
    }
}
