ghost use Rattle.std.specs.Prelude.{◌≡◌, ◌≤◌, ◌++◌, IfOk, OnOk};
ghost use Rattle.pages_load.specs.Load.{line, report};

use crate::counting::{good_answers, hits, publishings};
use load_gen::{MAX_PAGES, counted};
use packed_entries::History;
use std::alloc::{AllocError, Global};

/// The five lines that tell of a site of so many pages, by its history and the answers.
pub(crate) fn report(
    alloc: Global,
    number: u32,
    history: &History,
    answers: &[u8],
) -> Result<Vec<u8>, AllocError>
    requires few { number ≤ MAX_PAGES }
    ensures { IfOk result (λ lines. lines.items ≡ report number history.now.items answers.now) }
{
    // By this law the messages for so many pages ask four times as often for a page.
    counted();
    let mut lines = Vec::new(alloc);
    add_line(alloc, &mut lines, b"pages ", number as usize)?;
    add_line(alloc, &mut lines, b"version ", publishings(history))?;
    add_line(alloc, &mut lines, b"requests ", 4 * number as usize)?;
    add_line(alloc, &mut lines, b"ok ", good_answers(answers))?;
    add_line(alloc, &mut lines, b"hits ", hits(history))?;
    Ok(lines)
}

// Adds a word and its number on a line.
fn add_line(
    alloc: Global,
    lines: &mut Vec<u8>,
    word: &[u8],
    number: usize,
) -> Result<(), AllocError>
    ensures { OnOk result (lines.new.items ≡ lines.old.items ++ line word.now number) }
{
    lines.extend_from_slice(word)?;
    lines.extend_from_slice(number.to_string(alloc)?.as_bytes())?;
    lines.extend_from_slice(b"\n")
}
