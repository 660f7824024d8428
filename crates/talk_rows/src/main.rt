//! The program `talk_rows`: has each conversation on standard input, and tells what is answered.
//!
//! A row is some lines up to an empty one: first what is done, then what is said. `play` has a
//! conversation in pieces of one byte and of 4,096; `cut` ends it at each byte in turn; `reads` and
//! `writes` let one read or write after the other fail; `both` has one as an editor and a reader,
//! and behind a line `reader` another as a reader alone; `contexts` with names and `preview` have
//! one by these commands; `words` gives the command `play` other words, and `load` gives `load` a
//! number. A line that begins with `# ` says what the rows behind it show. In writing `¶` ends a
//! line as HTTP does and `↵` by a line feed alone, and `«9 x»` is x nine times. The lines are
//! written as they are read, and behind each row, after `> `, comes what is told: a status, and the
//! answers.
#![tactic(auto)]

mod desks;
mod failing;
mod loading;
mod playing;
mod roles;
mod writing;

use crate::writing::{input_of, shown};
use std::alloc::{AllocError, Global};
use std::io;

fn main(rt: HostRuntime) -> io::Result<()> {
    let alloc = rt.alloc();
    let mut row = Vec::new(alloc);
    for line in rt.lines(alloc) {
        let line = line?;
        println!(rt; "{}", line.as_str())?;
        if line.starts_with("# ") {
            continue;
        }
        if !line.is_empty() {
            row.push(line)?;
        } else if !row.is_empty() {
            println!(rt; "> {}\n", row_told(alloc, &row)?.as_str())?;
            row.clear();
        }
    }
    Ok(())
}

// What is told of these lines.
fn row_told(alloc: Global, lines: &[String]) -> Result<String, AllocError> {
    let Some((first, said)) = lines.split_first() else {
        return String::from_str(alloc, "nothing is done");
    };
    let (kind, words) = first
        .as_str()
        .split_once(' ')
        .unwrap_or((first.as_str(), ""));
    match kind {
        "play" => played(alloc, said),
        "cut" => failing::cuts(alloc, &input_of(alloc, said)?),
        "reads" => failing::reads(alloc, &input_of(alloc, said)?),
        "writes" => failing::writes(alloc, &input_of(alloc, said)?),
        "both" => roles::roles_told(alloc, said),
        "contexts" => desks::contexts_told(alloc, first.as_str(), said),
        "preview" => desks::preview_told(alloc, first.as_str(), said),
        "load" => loading::load_told(alloc, words, !said.is_empty()),
        _ => {
            let (status, text) = playing::worded(alloc, words)?;
            shown(alloc, status, &text)
        }
    }
}

// What is told of a conversation in small pieces, and where that is something else what is told of
// it in large ones.
fn played(alloc: Global, said: &[String]) -> Result<String, AllocError> {
    let input = input_of(alloc, said)?;
    let (status, text) = playing::play_told(alloc, &input, 1)?;
    let small = shown(alloc, status, &text)?;
    let (status, text) = playing::play_told(alloc, &input, 4_096)?;
    let large = shown(alloc, status, &text)?;
    if small.as_str() == large.as_str() {
        return Ok(small);
    }
    format!(in alloc; "{small}\nbut {large}")
}
