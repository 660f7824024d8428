//! The program `request_rows`: reads the bytes of each row on standard input as requests, and tells
//! what is read.
//!
//! A row is some lines up to an empty one: first what is told, then the bytes. `requests` tells
//! each request as a line, its method, target and body and whether it asks to close, and then what
//! stops them; `fails` and a number do so in pieces of 7 bytes where that read fails. `parts` tells
//! how many fields the one request has, its path, query, parameters and session, `fields` its
//! fields, and `to` and a target the line and the parts once it goes there. `size` tells how large
//! the body of the first request is, and `calls` what four calls say where the reads 20, 48 and 50
//! fail. But for the last two, one byte comes at a time, and all at once, which has to tell the
//! same.
//! In writing `¶` ends a line by CR LF, `↵` by LF, `␍` is CR, `ÿ` the byte 255, and `«9 x»` is x
//! nine times. A line that begins with `# ` says what the rows behind it show. The lines are
//! written as they are read, and behind each row, after `> `, comes what is told.
#![tactic(auto)]

mod bodies;
mod requests;
mod shown;

use crate::requests::{failing_told, only_told, requests_told};
use http_in::one_cut;
use row_text::written_out;
use std::alloc::{AllocError, Global};
use std::io;

// What a sign stands for.
const SIGNS: [(&str, &str); 3] = [("¶", "\r\n"), ("↵", "\n"), ("␍", "\r")];

fn main(rt: HostRuntime) -> io::Result<()> {
    one_cut();
    let mut row = Vec::new(rt.alloc());
    for line in rt.lines(rt.alloc()) {
        take(&rt, &mut row, line)?;
    }
    Ok(())
}

// Writes a line that was read, and adds it to a row, or ends that.
fn take(rt: &HostRuntime, row: &mut Vec<String>, line: io::Result<String>) -> io::Result<()> {
    let line = line?;
    println!(rt; "{}", line.as_str())?;
    if line.is_empty() {
        return end(rt, row);
    }
    if !line.starts_with("# ") {
        row.push(line)?;
    }
    Ok(())
}

// Writes what is told of a row, where there is one.
fn end(rt: &HostRuntime, row: &mut Vec<String>) -> io::Result<()> {
    if !row.is_empty() {
        let told = row_told(rt.alloc(), row.as_slice())?;
        println!(rt; "> {}\n", told.as_str())?;
        row.clear();
    }
    Ok(())
}

// What is told of these lines. Line ends in it are written.
fn row_told(alloc: Global, lines: &[String]) -> Result<String, AllocError> {
    let Some((first, written)) = lines.split_first() else {
        return String::from_str(alloc, "nothing is told");
    };
    let told = bytes_told(alloc, first.as_str(), written)?;
    on_a_line(alloc, told.as_str())
}

fn on_a_line(alloc: Global, text: &str) -> Result<String, AllocError> {
    let text = text.replace(alloc, "\r", "␍")?;
    text.replace(alloc, "\n", "↵")
}

fn bytes_told(alloc: Global, first: &str, written: &[String]) -> Result<String, AllocError> {
    let (kind, word) = first.split_once(' ').unwrap_or((first, ""));
    let bytes = bytes_of(alloc, written)?;
    match kind {
        "requests" => requests_told(alloc, &bytes),
        "fails" => failing_told(alloc, &bytes, word),
        "size" => bodies::sizes_told(alloc, &bytes),
        "calls" => bodies::calls_told(alloc, &bytes),
        _ => only_told(alloc, kind, word, &bytes),
    }
}

// The bytes of these lines, one behind the other.
fn bytes_of(alloc: Global, written: &[String]) -> Result<Vec<u8>, AllocError> {
    let mut bytes = Vec::new(alloc);
    for line in written {
        add_line(alloc, &mut bytes, line.as_str())?;
    }
    Ok(bytes)
}

fn add_line(alloc: Global, bytes: &mut Vec<u8>, line: &str) -> Result<(), AllocError> {
    let text = written_out(alloc, line, &SIGNS)?;
    add_text(bytes, text.as_str())
}

// Adds the bytes of a text, in which `ÿ` is the byte 255.
fn add_text(bytes: &mut Vec<u8>, text: &str) -> Result<(), AllocError> {
    let mut is_first = true;
    for piece in text.split('ÿ') {
        if !is_first {
            bytes.push(255)?;
        }
        is_first = false;
        bytes.extend_from_slice(piece.as_bytes())?;
    }
    Ok(())
}
