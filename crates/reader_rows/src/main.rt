//! The program `reader_rows`: reads the text of each row on standard input as a page or as a piece
//! of one, and tells what is read.
//!
//! A row is some lines up to an empty one. The first says what is done. `piece` reads the piece at
//! the front, `repeats` tells whether its attributes repeat, and `plain` and a name what an
//! attribute has that is plain; `end`, a prefix and a name tells whether the file could end in the
//! end of such an element. `tree` reads a page under a setting with the prefix c, and `first` reads
//! one for the first time; `sizes` and `stop` behind them tell of the tree in short, and `holds`
//! whether what is told of it has a part, which is the last line. A setting may be `off`, without
//! expressions, `hash`, where a hash is text, or `brought`, where an include at byte 6 brings the
//! prefix d. The second line is the text; a row without it has an empty one. In writing `¶` ends a
//! line, and `«9 x»` is x nine times. A line that begins with `# ` says what the rows behind it
//! show. The lines are written as they are read, and behind each row, after `> `, comes what is
//! told.
#![tactic(auto)]

mod pieces;
mod reading;
mod settings;
mod trees;

use page_pieces::could_end;
use page_reader::one_page;
use row_text::written_out;
use std::alloc::{AllocError, Global};
use std::io;

fn main(rt: HostRuntime) -> io::Result<()> {
    one_page();
    let alloc = rt.alloc();
    let mut row = Vec::new(alloc);
    for line in rt.lines(alloc) {
        let line = line?;
        println!(rt; "{}", line.as_str())?;
        if line.starts_with("# ") {
            continue;
        }
        if !line.is_empty() {
            row.push(written_out(alloc, line.as_str(), &[("¶", "\n")])?)?;
        } else if !row.is_empty() {
            println!(rt; "> {}\n", row_told(alloc, &row)?.as_str())?;
            row.clear();
        }
    }
    Ok(())
}

// What is told of these lines. Line ends in it are written.
fn row_told(alloc: Global, lines: &[String]) -> Result<String, AllocError> {
    let Some(first) = lines.first() else {
        return String::from_str(alloc, "nothing is done");
    };
    let text = match lines.get(1) {
        Some(text) => text.as_str(),
        None => "",
    };
    let (kind, words) = first
        .as_str()
        .split_once(' ')
        .unwrap_or((first.as_str(), ""));
    let told = match kind {
        "tree" | "first" => reading::reading_told(alloc, kind, words, text, lines.get(2)),
        "end" => end_told(alloc, words, text),
        _ => pieces::front_told(alloc, kind, words, text),
    };
    told?.replace(alloc, "\n", "¶")
}

fn end_told(alloc: Global, words: &str, text: &str) -> Result<String, AllocError> {
    let (prefix, name) = words.split_once(' ').unwrap_or((words, ""));
    format!(in alloc; "{}", could_end(text, prefix, name))
}
