//! Texts of rows in writing: `«9 x»` is x nine times, and some signs stand for what a row has no
//! room for.
#![tactic(auto)]

use pg_text::whole_number;
use std::alloc::{AllocError, Global};

/// A text as it is meant, with what each of these signs stands for. What is no number, blank and
/// text between `«` and `»` stays as it is written.
pub fn written_out(
    alloc: Global,
    written: &str,
    signs: &[(&str, &str)],
) -> Result<String, AllocError> {
    let mut text = String::new(alloc);
    match written.split_once('«') {
        Some((plain, pieces)) => {
            text.push_str(plain)?;
            for piece in pieces.split('«') {
                add_piece(alloc, &mut text, piece)?;
            }
        }
        None => text.push_str(written)?,
    }
    for &(sign, meant) in signs {
        text = text.replace(alloc, sign, meant)?;
    }
    Ok(text)
}

// Adds what stands behind a `«`: a text so many times, and what is behind the `»`.
fn add_piece(alloc: Global, text: &mut String, piece: &str) -> Result<(), AllocError> {
    match repeated_in(piece) {
        Some((count, repeated, behind)) => {
            text.push_str(repeated.repeat(alloc, count)?.as_str())?;
            text.push_str(behind)
        }
        None => {
            text.push_str("«")?;
            text.push_str(piece)
        }
    }
}

// A number, a blank, and the text that is meant so many times; and what is behind the `»`.
fn repeated_in(piece: &str) -> Option<(usize, &str, &str)> {
    let (repeated, behind) = piece.split_once('»')?;
    let (count, text) = repeated.split_once(' ')?;
    let count = whole_number(count.as_bytes())?;
    Some((count as usize, text, behind))
}
