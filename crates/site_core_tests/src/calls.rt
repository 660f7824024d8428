ghost use Rattle.std.specs.Prelude.{◌≡◌, ℕ, List, true, false};
ghost use Rattle.std.specs.Arc.{arc_value};
ghost use Rattle.source_tree.specs.declared.file.File.{File};
ghost use Rattle.site_words.specs.Fits.{fits};
ghost use Rattle.site_words.specs.State.{after};
ghost use Rattle.site_core_tests.specs.Roll.{is_roll};

use crate::line::{entry_text, file_text, outcome_text};
use crate::script::{Line, Question, asked, number, op_of, pass_of, path_of, picture, words};
use crate::word::Word;
use pg_text::{BadPath, Failure, Path};
use site_core::{Act, Given, Site};
use site_words::{Acted, Compiled, Op, Refusal};
use std::alloc::{AllocError, Global};
use std::sync::Arc;

/// Does what the lines ask for, one after the other. Of each line it reads what stands before ` >
/// `, and it tells the line again with what it came to behind that.
pub fn script_told(
    alloc: Global,
    site: &mut Site<Word>,
    script: &str,
) -> Result<String, Failure<BadPath>> {
    let mut lines = String::new(alloc);
    let mut rest = script;
    for _ in 0..script.len() {
        let Some((line, behind)) = rest.split_once('\n') else {
            break;
        };
        tell(alloc, site, before_mark(line), &mut lines)?;
        rest = behind;
    }
    Ok(lines)
}

// What stands before the mark.
fn before_mark(line: &str) -> &str {
    match line.split_once(" > ") {
        Some((before, _)) => before,
        None => line,
    }
}

// Does what the line asks for, and adds it and what it came to.
fn tell(
    alloc: Global,
    site: &mut Site<Word>,
    line: &str,
    lines: &mut String,
) -> Result<(), Failure<BadPath>> {
    lines.push_str(line)?;
    lines.push_str(" > ")?;
    let (count, line) = times(line);
    for _ in 1..count {
        answer(alloc, site, &words(line))?;
    }
    lines.push_str(answer(alloc, site, &words(line))?.as_str())?;
    lines.push_str("\n")?;
    Ok(())
}

// How often a line is to be done, and the line behind that.
fn times(line: &str) -> (u64, &str) {
    match line.split_once(" times ") {
        Some((count, line)) => (number(count), line),
        None => (1, line),
    }
}

// What the line comes to.
fn answer(alloc: Global, site: &mut Site<Word>, line: &Line) -> Result<String, Failure<BadPath>> {
    match asked(line) {
        Question::Count => Ok(count_text(alloc, site)?),
        Question::Entry(place) => Ok(entry_at(alloc, site, place)?),
        Question::File(path) => file(alloc, site, pass_of(line), path),
        Question::Operation => operation(alloc, site, line),
    }
}

fn operation(
    alloc: Global,
    site: &mut Site<Word>,
    line: &Line,
) -> Result<String, Failure<BadPath>> {
    let op = op_of(alloc, line)?;
    Ok(done(alloc, site, pass_of(line), op)?)
}

fn done(alloc: Global, site: &mut Site<Word>, pass: u8, op: Op) -> Result<String, AllocError> {
    let outcome = step(alloc, site, pass, op)?;
    outcome_text(alloc, &outcome)
}

fn count_text(alloc: Global, site: &Site<Word>) -> Result<String, AllocError> {
    let count = site.len();
    format!(in alloc; "{count}")
}

fn entry_at(alloc: Global, site: &Site<Word>, place: u64) -> Result<String, AllocError> {
    match site.history().get(place as usize) {
        Some(entry) => entry_text(alloc, entry),
        None => String::from_str(alloc, "none"),
    }
}

// The file of the latest tree, as a picture shows it.
fn file(
    alloc: Global,
    site: &mut Site<Word>,
    pass: u8,
    path: &str,
) -> Result<String, Failure<BadPath>> {
    let path = path_of(alloc, path)?;
    Ok(file_at(alloc, site, pass, &path)?)
}

fn file_at(
    alloc: Global,
    site: &mut Site<Word>,
    pass: u8,
    path: &Path,
) -> Result<String, AllocError> {
    let picture = picture(alloc, "-")?;
    let outcome = step(alloc, site, pass, picture)?;
    file_text(alloc, &outcome, path)
}

/// One operation of a pass, with a value for an Offer. None where it doesn't meet the condition of
/// a step, and for a Roll.
pub fn step(
    alloc: Global,
    site: &mut Site<Word>,
    pass: u8,
    op: Op,
) -> Result<Option<Acted<Given<Word>, Refusal>>, AllocError> {
    let word = Arc::new(alloc, Word::new(alloc))?;
    if is_roll(&op) || !site.fits(pass, &op) {
        return Ok(None);
    }
    Ok(Some(ask(site, pass, op, word)))
}

// An operation that meets the condition of a step, with a value that is made from each tree and
// path.
fn ask<P: Compiled>(site: &mut Site<P>, pass: u8, op: Op, made: Arc<P>) -> Acted<Given<P>, Refusal>
    requires fit { fits site.old.opening (after P.needs site.old.opening site.old.history) pass op ≡ true }
    requires other { is_roll op ≡ false }
    requires made { (tree : List File) (path : List ℕ) → P.made (arc_value made) tree path }
{
    site.law();
    site.apply(
        pass,
        Act {
            op,
            made: Some(made),
        },
    )
}

fn is_roll(op: &Op) -> bool
    ensures { result ≡ is_roll op.now }
{
    matches!(op, Op::Roll)
}
