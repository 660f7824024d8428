ghost use Rattle.std.specs.Prelude.{◌≡◌, ◌≤◌, length, string_bytes, IfOk};
ghost use Rattle.std.specs.List.{prefix_len, suffix_len};
ghost use Rattle.jstl_functions.specs.Texts.{after_part, before_part, begin_of, end_of, is_low};
ghost use Rattle.jstl_functions.specs.Texts.{substring_of, trimmed_end, trimmed_front};

use crate::scalars::scalar_count;
use crate::search::place_of_part;
use std::alloc::{AllocError, Global};

// What is cut from a text.

// The characters from one on to another. A begin below 0 is 0, and an end below 0 or beyond the
// text is its end.
pub(crate) fn substring(
    alloc: Global,
    text: &str,
    begin: i64,
    end: i64,
) -> Result<String, AllocError>
    ensures { IfOk result (λ cut. string_bytes cut ≡ substring_of text.now begin end) }
{
    let begin = begin_of(begin);
    let count = end_of(scalar_count(text), end).saturating_sub(begin);
    text.chars().skip(begin).take(count).collect(alloc)
}

fn begin_of(begin: i64) -> usize
    ensures { result ≡ begin_of begin }
{
    if begin < 0 { 0 } else { begin as usize }
}

fn end_of(len: usize, end: i64) -> usize
    ensures { result ≡ end_of len end }
{
    if end < 0 { len } else { len.min(end as usize) }
}

// What stands behind the first part: all where the part is empty, and nothing where it is absent.
pub(crate) fn after_part<'a>(text: &'a str, part: &str) -> &'a str
    ensures { result.now ≡ after_part part.now text.now }
{
    match place_of_part(text, part) {
        Some(place) => {
            let (_, behind) = text.split_at(place + part.len());
            behind
        }
        None => "",
    }
}

// What stands before the first part: nothing where the part is empty or absent.
pub(crate) fn before_part<'a>(text: &'a str, part: &str) -> &'a str
    ensures { result.now ≡ before_part part.now text.now }
{
    match place_of_part(text, part) {
        Some(place) => {
            let (before, _) = text.split_at(place);
            before
        }
        None => "",
    }
}

// The text without the characters up to U+0020 at both ends.
pub(crate) fn trim(text: &str) -> &str
    ensures { result.now ≡ trimmed_end (trimmed_front text.now) }
{
    trim_end(trim_front(text))
}

fn trim_front(text: &str) -> &str
    ensures { result.now ≡ trimmed_front text.now }
{
    let (_, behind) = text.split_at(low_front(text.as_bytes()));
    behind
}

fn trim_end(text: &str) -> &str
    ensures { result.now ≡ trimmed_end text.now }
{
    let (before, _) = text.split_at(text.len() - low_end(text.as_bytes()));
    before
}

// How many bytes stand first that are characters up to U+0020.
fn low_front(bytes: &[u8]) -> usize
    ensures within { result ≤ length bytes.now }
    ensures value { result ≡ prefix_len is_low bytes.now }
{
    bytes.iter().take_while(|byte| is_low(**byte)).count()
}

// How many bytes stand last that are characters up to U+0020.
fn low_end(bytes: &[u8]) -> usize
    ensures within { result ≤ length bytes.now }
    ensures value { result ≡ suffix_len is_low bytes.now }
{
    bytes.iter().rev().take_while(|byte| is_low(**byte)).count()
}

fn is_low(byte: u8) -> bool
    ensures { result ≡ is_low byte }
{
    byte <= b' '
}
