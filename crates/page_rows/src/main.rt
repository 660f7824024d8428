//! The program `page_rows`: runs the page of each row on standard input, and tells what comes of
//! it.
//!
//! A row is some lines up to an empty one. Its lines that begin with a path are the files of a
//! tree, of which the first is a page that is read, translated and run. The other lines say what
//! surrounds the run: what its steps are answered, the request, limits, and how deep it runs and
//! how much was visited and charged before. A line that begins with `# ` says what the rows behind
//! it show. The lines are written as they are read, and behind each row, after `> `, comes what is
//! told.
#![tactic(auto)]

mod surroundings;
mod told;
mod tree_row;
mod tree_run;
mod unreadable;
mod words;

use crate::unreadable::Unreadable;
use std::alloc::{AllocError, Global};
use std::io;

fn main(rt: HostRuntime) -> io::Result<()> {
    let mut row = Vec::new(rt.alloc());
    for line in rt.lines(rt.alloc()) {
        take(&rt, &mut row, line)?;
    }
    Ok(())
}

// Writes a line that was read, and adds it to a row, or ends that.
fn take(rt: &HostRuntime, row: &mut Vec<String>, line: io::Result<String>) -> io::Result<()> {
    let line = line?;
    println!(rt; "{}", line.as_str())?;
    if line.is_empty() {
        return end(rt, row);
    }
    if !line.starts_with("# ") {
        row.push(line)?;
    }
    Ok(())
}

// Writes what is told of a row, where there is one.
fn end(rt: &HostRuntime, row: &mut Vec<String>) -> io::Result<()> {
    if !row.is_empty() {
        let told = row_told(rt.alloc(), row.as_slice())?;
        println!(rt; "> {}\n", told.as_str())?;
        row.clear();
    }
    Ok(())
}

// What is told of these lines, or what is wrong with them.
fn row_told(alloc: Global, lines: &[String]) -> Result<String, AllocError> {
    match tree_row::page_told(alloc, lines) {
        Ok(told) => Ok(told),
        Err(Unreadable::Word(what)) => String::from_str(alloc, what),
        Err(Unreadable::NoMemory) => Err(AllocError),
    }
}
