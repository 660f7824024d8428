// The words of a list that commas part, and whether they are names.
ghost use Rattle.std.specs.Prelude.{◌≡◌, ◌<◌, ◌∷◌, length, map, IfOk, IfSome};
ghost use Rattle.std.specs.List.{list_all, list_any, slice_split};
ghost use Rattle.std.specs.Option.{option_map};
ghost use Rattle.std.specs.Str.{bytes_eq};
ghost use Rattle.context_names.specs.Names.{are_distinct, are_names, is_comma, is_name, is_sign};
ghost use Rattle.context_names.specs.Names.{words_in};

use crate::limits::{MAX_CONTEXT_NAME_BYTES, MAX_CONTEXTS};
use pg_text::Text;
use std::alloc::{AllocError, Global};

/// The words that commas part.
pub(crate) fn words_of(alloc: Global, list: &str) -> Result<Vec<Text>, AllocError>
    ensures { IfOk result (λ words. words.items ≡ slice_split is_comma list.now) }
{
    let mut words = Vec::new(alloc);
    let mut behind = Some(list);
    while let Some(text) = behind {
        let (word, rest) = cut(text);
        words.push(Text::copy_of(alloc, word)?)?;
        behind = rest;
    }
    Ok(words)
}

/// The text before the first comma, and the text behind it, where there is one.
pub(crate) fn cut(text: &str) -> (&str, Option<&str>)
    ensures words { slice_split is_comma text.entry.now
        ≡ result.0.now ∷ words_in (option_map (λ behind. behind.now) result.1) }
    ensures shorter { IfSome result.1 (λ behind. length behind.now < length text.entry.now) }
{
    match text.split_once(',') {
        Some((before, behind)) => (before, Some(behind)),
        None => (text, None),
    }
}

/// Whether these are the names of contexts.
pub(crate) fn are_names(words: &[Text]) -> bool
    ensures { result ≡ are_names words.now }
{
    if words.is_empty() || words.len() > MAX_CONTEXTS {
        return false;
    }
    all_named(words) && are_distinct(words)
}

// Whether each can be a name.
fn all_named(words: &[Text]) -> bool
    ensures { result ≡ list_all is_name words.now }
{
    for word in words {
        if !is_name(word.as_bytes()) {
            return false;
        }
    }
    true
}

/// Whether a text can be a name.
pub(crate) fn is_name(text: &[u8]) -> bool
    ensures { result ≡ is_name text.now }
{
    text.len() >= 1 && text.len() <= MAX_CONTEXT_NAME_BYTES && are_signs(text)
}

// Whether there is nothing but lower-case letters and digits.
fn are_signs(text: &[u8]) -> bool
    ensures { result ≡ list_all is_sign text.now }
{
    text.iter().all(|b| matches!(*b, b'a'..=b'z' | b'0'..=b'9'))
}

// Whether no two of them are the same.
fn are_distinct(words: &[Text]) -> bool
    ensures { result ≡ are_distinct words.now }
{
    for index in 0..words.len() {
        if has_word(&words[index + 1..], &words[index]) {
            return false;
        }
    }
    true
}

fn has_word(words: &[Text], word: &Text) -> bool
    ensures { result ≡ list_any (λ other. bytes_eq other word.now) words.now }
{
    words
        .iter()
        .any(|other| other.as_bytes() == word.as_bytes())
}
