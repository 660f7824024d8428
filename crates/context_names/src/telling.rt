// Whether a word tells names, seen without taking memory.
ghost use Rattle.std.specs.Prelude.{◌≡◌, is_some, length, nat_le};
ghost use Rattle.std.specs.List.{list_all, list_any, slice_split};
ghost use Rattle.std.specs.Str.{bytes_eq};
ghost use Rattle.context_names.specs.Names.{are_distinct, is_comma, is_name, names_in};

use crate::limits::MAX_CONTEXTS;
use crate::reading::{cut, is_name};

/// Whether a word tells names of contexts, joined by commas. It takes no memory.
pub fn tells_names(word: &str) -> bool
    ensures { result ≡ is_some (names_in word.now) }
{
    are_few(word, MAX_CONTEXTS) && all_named(word) && are_distinct(word)
}

// Whether commas part no more words than these.
fn are_few(list: &str, most: usize) -> bool
    ensures { result ≡ nat_le (length (slice_split is_comma list.now)) most }
{
    if most == 0 {
        return false;
    }
    match cut(list) {
        (_, Some(behind)) => are_few(behind, most - 1),
        (_, None) => true,
    }
}

// Whether each word can be a name.
fn all_named(list: &str) -> bool
    ensures { result ≡ list_all is_name (slice_split is_comma list.now) }
{
    match cut(list) {
        (name, Some(behind)) => is_name(name.as_bytes()) && all_named(behind),
        (name, None) => is_name(name.as_bytes()),
    }
}

// Whether no two words are the same.
fn are_distinct(list: &str) -> bool
    ensures { result ≡ are_distinct (slice_split is_comma list.now) }
{
    match cut(list) {
        (name, Some(behind)) => !has_word(behind, name) && are_distinct(behind),
        (_, None) => true,
    }
}

fn has_word(list: &str, word: &str) -> bool
    ensures { result ≡ list_any (λ other. bytes_eq other word.now) (slice_split is_comma list.now) }
{
    match cut(list) {
        (name, Some(behind)) => name.as_bytes() == word.as_bytes() || has_word(behind, word),
        (name, None) => name.as_bytes() == word.as_bytes(),
    }
}
