//! The program `value_rows`: does what each row on standard input says with the values of JSON
//! texts, and tells what comes of it.
//!
//! A row is some lines up to an empty one: first what is done, then a JSON text on each line.
//! `json` tells whether a text is one and has a value, `record` whether it has a record; `measure`
//! tells what a value weighs, how deep it is, and whether it is over a limit; `text`, `number` and
//! `truth` coerce a value; `unary` and `binary` and an operator, and `index`, take one value or
//! two; `call` and the name of a function takes a list of its arguments; and `rounds` and what a
//! loop goes over takes a record of what it is given. In writing `«9 x»` is x nine times. A line
//! that begins with `# ` says what the rows behind it show. The lines are written as they are read,
//! and behind each row, after `> `, comes what is told: of a value its kind and its text, and of a
//! long text its size; or a fault.
#![tactic(auto)]

mod acts;
mod operators;
mod rounds;
mod shown;

use pg_value::Failure;
use row_text::written_out;
use std::alloc::{AllocError, Global};
use std::io;

fn main(rt: HostRuntime) -> io::Result<()> {
    let mut row = Vec::new(rt.alloc());
    for line in rt.lines(rt.alloc()) {
        take(&rt, &mut row, line)?;
    }
    Ok(())
}

// Writes a line that was read, and adds it to a row, or ends that.
fn take(rt: &HostRuntime, row: &mut Vec<String>, line: io::Result<String>) -> io::Result<()> {
    let line = line?;
    println!(rt; "{}", line.as_str())?;
    if line.is_empty() {
        end(rt, row)
    } else if line.starts_with("# ") {
        Ok(())
    } else {
        add(rt.alloc(), row, line.as_str())
    }
}

// Adds a line to a row.
fn add(alloc: Global, row: &mut Vec<String>, line: &str) -> io::Result<()> {
    let line = written_out(alloc, line, &[])?;
    row.push(line)?;
    Ok(())
}

// Writes what is told of a row, where there is one.
fn end(rt: &HostRuntime, row: &mut Vec<String>) -> io::Result<()> {
    if !row.is_empty() {
        let told = row_told(rt.alloc(), row.as_slice())?;
        println!(rt; "> {}\n", told.as_str())?;
        row.clear();
    }
    Ok(())
}

// What is told of these lines.
fn row_told(alloc: Global, lines: &[String]) -> Result<String, AllocError> {
    let Some((first, written)) = lines.split_first() else {
        return String::from_str(alloc, "nothing is done");
    };
    let (act, word) = first
        .as_str()
        .split_once(' ')
        .unwrap_or((first.as_str(), ""));
    if act == "json" {
        return acts::json_told(alloc, written);
    }
    if act == "record" {
        return acts::record_told(alloc, written);
    }
    match acts::values_of(alloc, written) {
        Ok(values) => acts::values_told(alloc, act, word, &values),
        Err(Failure::Fault(_)) => String::from_str(alloc, "no values"),
        Err(Failure::NoMemory) => Err(AllocError),
    }
}
