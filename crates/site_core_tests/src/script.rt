//! Operations in words. A line has the number of the pass, what it asks for, and of what; an
//! attribute is always `n`, and `-` stands for nothing.
use pg_text::{BadPath, Failure, Path, Text, resolve};
use pg_value::{Attrs, Value};
use site_words::{AppStep, Op};
use source_tree::{Edit, Edits, FileText};
use std::alloc::{AllocError, Global};

/// The words of a line. Those that aren't there are empty.
#[derive(Clone, Copy)]
pub struct Line<'a> {
    pass: &'a str,
    verb: &'a str,
    first: &'a str,
    second: &'a str,
    third: &'a str,
}

/// Reads the words of a line.
pub fn words(line: &str) -> Line<'_> {
    let (pass, rest) = cut(line);
    let (verb, rest) = cut(rest);
    let (first, rest) = cut(rest);
    let (second, third) = cut(rest);
    Line {
        pass,
        verb,
        first,
        second,
        third,
    }
}

// The first word, and what is behind it.
fn cut(text: &str) -> (&str, &str) {
    match text.split_once(' ') {
        Some((word, rest)) => (word, rest),
        None => (text, ""),
    }
}

/// The pass of a line.
pub fn pass_of(line: &Line) -> u8 {
    line.pass.parse::<u8>().unwrap_or(u8::MAX)
}

/// What a line asks for.
#[derive(Clone, Copy)]
pub enum Question<'a> {
    /// How many entries the journal has.
    Count,
    /// The entry at this place of the journal.
    Entry(u64),
    /// The file with this path in the latest tree, by a picture.
    File(&'a str),
    Operation,
}

/// What the line asks for.
pub fn asked<'a>(line: &Line<'a>) -> Question<'a> {
    match line.verb {
        "count" => Question::Count,
        "entry" => Question::Entry(number(line.first)),
        "file" => Question::File(line.first),
        _ => Question::Operation,
    }
}

/// The operation of a line, and a Roll for a word that says none.
pub fn op_of(alloc: Global, line: &Line) -> Result<Op, Failure<BadPath>> {
    match line.verb {
        "begin" => Ok(begin(alloc, line)?),
        "publish" => publish(alloc, line),
        "picture" => Ok(picture(alloc, line.first)?),
        _ => of_request(alloc, number(line.first), line),
    }
}

/// A picture with this cookie.
pub fn picture(alloc: Global, word: &str) -> Result<Op, AllocError> {
    Ok(Op::Snapshot {
        cookie: cookie(alloc, word)?,
    })
}

fn begin(alloc: Global, line: &Line) -> Result<Op, AllocError> {
    Ok(Op::Begin {
        cookie: cookie(alloc, line.first)?,
        moment: number(line.second),
    })
}

// Puts a file with this path and so many bytes, on this base.
fn publish(alloc: Global, line: &Line) -> Result<Op, Failure<BadPath>> {
    let base = if line.first == "-" {
        None
    } else {
        Some(number(line.first))
    };
    let edits = put(alloc, line.second, size(line.third))?;
    Ok(Op::Publish { base, edits })
}

/// Edits that put a file with this path and so many bytes.
pub fn put(alloc: Global, path: &str, bytes: usize) -> Result<Edits, Failure<BadPath>> {
    let path = resolve(alloc, None, path)?;
    let text = text_of(alloc, bytes)?;
    Ok(alone(alloc, Edit::Put(path, text))?)
}

// A text of so many bytes.
fn text_of(alloc: Global, bytes: usize) -> Result<FileText, AllocError> {
    let text = "x".repeat(alloc, bytes)?;
    FileText::copy_of(alloc, text.as_str())
}

// Edits of one.
fn alone(alloc: Global, edit: Edit) -> Result<Edits, AllocError> {
    let mut edits = Edits::new(alloc);
    edits.push(edit)?;
    Ok(edits)
}

fn cookie(alloc: Global, word: &str) -> Result<Text, AllocError> {
    Text::copy_of(alloc, if word == "-" { "" } else { word })
}

/// The number that a word is, and 0 for another word.
pub fn number(word: &str) -> u64 {
    word.parse::<u64>().unwrap_or(0)
}

fn size(word: &str) -> usize {
    word.parse::<usize>().unwrap_or(0)
}

// What a request that is under way asks for.
fn of_request(alloc: Global, request: u64, line: &Line) -> Result<Op, Failure<BadPath>> {
    match line.verb {
        "fresh" => Ok(Op::Fresh { request }),
        "abandon" => Ok(Op::Abandon { request }),
        "end" => Ok(Op::End {
            request,
            attrs: numbered(alloc, line.second)?,
        }),
        "fetch" => Ok(Op::Fetch {
            request,
            path: path_of(alloc, line.second)?,
        }),
        "offer" => Ok(Op::Offer {
            request,
            path: path_of(alloc, line.second)?,
        }),
        "get" => Ok(get(alloc, request)?),
        "set" => Ok(set(alloc, request, number(line.second))?),
        _ => Ok(Op::Roll),
    }
}

/// The path that a word is.
pub fn path_of(alloc: Global, word: &str) -> Result<Path, Failure<BadPath>> {
    resolve(alloc, None, word)
}

fn get(alloc: Global, request: u64) -> Result<Op, AllocError> {
    let step = AppStep::Get(name(alloc)?);
    Ok(Op::App { request, step })
}

fn set(alloc: Global, request: u64, number: u64) -> Result<Op, AllocError> {
    let step = AppStep::Set(name(alloc)?, value(number));
    Ok(Op::App { request, step })
}

fn name(alloc: Global) -> Result<Text, AllocError> {
    Text::copy_of(alloc, "n")
}

fn value(number: u64) -> Value {
    Value::Int(i64::try_from(number).unwrap_or(i64::MAX))
}

// Attributes with this number, and none for `-`.
fn numbered(alloc: Global, word: &str) -> Result<Attrs, AllocError> {
    let mut attrs = Attrs::empty(alloc);
    if word != "-" {
        attrs.insert(name(alloc)?, value(number(word)))?;
    }
    Ok(attrs)
}
