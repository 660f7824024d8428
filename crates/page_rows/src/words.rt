// The words of rows.
use crate::unreadable::Unreadable;
use pg_text::Text;
use pg_value::{Value, from_json};
use std::alloc::{AllocError, Global};

/// The first of these words, and the others.
pub fn first_word(words: &str) -> (&str, &str) {
    match words.split_once(' ') {
        Some((first, rest)) => (first, rest.trim()),
        None => (words, ""),
    }
}

/// The number that is written.
pub fn count(word: &str) -> usize {
    word.parse::<usize>().unwrap_or(0)
}

pub fn text(alloc: Global, text: &str) -> Result<Text, AllocError> {
    Text::copy_of(alloc, text)
}

/// The value of a JSON text.
pub fn value(alloc: Global, json: &str) -> Result<Value, Unreadable> {
    match from_json(alloc, json.as_bytes()) {
        Ok(value) => Ok(value),
        Err(_) => Err(Unreadable::Word("the value is no JSON")),
    }
}
