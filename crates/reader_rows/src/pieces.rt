// The piece at the front of a file.
use crate::settings::{add_attribute, page_path, setting};
use page_pieces::{Break, Leaf, Piece, Spot, Tag, read_piece};
use pg_text::Failure;
use std::alloc::{AllocError, Global};

/// What is told of the piece at the front of a file with this text.
pub fn front_told(
    alloc: Global,
    kind: &str,
    words: &str,
    text: &str,
) -> Result<String, AllocError> {
    if text.is_empty() || text.len() > 1000 {
        return String::from_str(alloc, "the text is empty or too long");
    }
    let setting = setting(alloc, words)?;
    let path = page_path(alloc)?;
    let read = read_piece(alloc, &setting, &path, Spot::start(), text);
    read_told(alloc, kind, words, read)
}

// What is told of what was read.
fn read_told(
    alloc: Global,
    kind: &str,
    words: &str,
    read: Result<(Piece, &str), Failure<Break>>,
) -> Result<String, AllocError> {
    match read {
        Ok((piece, rest)) => piece_told(alloc, kind, words, &piece, rest),
        Err(Failure::Fault(broken)) => break_told(alloc, broken),
        Err(Failure::NoMemory) => Err(AllocError),
    }
}

// The piece and behind a bar what follows it, or what its head has.
fn piece_told(
    alloc: Global,
    kind: &str,
    words: &str,
    piece: &Piece,
    rest: &str,
) -> Result<String, AllocError> {
    if let Piece::Start(tag) = piece {
        match kind {
            "repeats" => return format!(in alloc; "{}", tag.attributes.repeats()),
            "plain" => {
                return String::from_str(alloc, tag.attributes.plain(words).unwrap_or("none"));
            }
            _ => {}
        }
    }
    let mut out = String::new(alloc);
    show_piece(&mut out, piece)?;
    write!(out, "|{rest}")?;
    Ok(out)
}

fn show_tag(out: &mut String, tag: &Tag, end: &str) -> Result<(), AllocError> {
    write!(out, "<{}:{}", tag.prefix.as_str(), tag.name.as_str())?;
    for attribute in tag.attributes.as_slice() {
        add_attribute(out, attribute)?;
    }
    out.push_str(end)
}

fn show_leaf(out: &mut String, leaf: &Leaf) -> Result<(), AllocError> {
    match leaf {
        Leaf::Text(text) => write!(out, "'{}'", text.as_str()),
        Leaf::Comment => out.push_str("--"),
        Leaf::Expr(text) => write!(out, "${{{}}}", text.as_str()),
        Leaf::Hash => out.push_str("#{"),
        Leaf::Directive(name, attributes) => {
            write!(out, "@{}", name.as_str())?;
            for attribute in attributes.as_slice() {
                add_attribute(out, attribute)?;
            }
            Ok(())
        }
    }
}

fn show_piece(out: &mut String, piece: &Piece) -> Result<(), AllocError> {
    match piece {
        Piece::Leaf(leaf) => show_leaf(out, leaf),
        Piece::Start(tag) => show_tag(out, tag, ">"),
        Piece::Empty(tag) => show_tag(out, tag, "/>"),
        Piece::End(prefix, name) => write!(out, "</{}:{}>", prefix.as_str(), name.as_str()),
    }
}

fn break_told(alloc: Global, broken: Break) -> Result<String, AllocError> {
    match broken {
        Break::Fault(fault, spot) => {
            let (number, line, column) = (fault.number(), spot.line, spot.column);
            format!(in alloc; "E{number} {line}:{column}")
        }
        Break::BadEnd(spot) => {
            let (line, column) = (spot.line, spot.column);
            format!(in alloc; "bad end {line}:{column}")
        }
    }
}
