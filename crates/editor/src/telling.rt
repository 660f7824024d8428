ghost use Rattle.std.specs.Prelude.{◌≡◌, ◌++◌, codes, decimal, flat_map, IfOk, OnOk};
ghost use Rattle.editor.specs.Telling.{answer_text, fault_text, on_line, on_lines, tree_fault_name};

use crate::{EditorAnswer, EditorFault};
use http_out::full_line;
use pg_text::Path;
use source_tree::TreeFault;
use std::alloc::{AllocError, Global};

/// The lines of an answer, which has the status 200, without the end of the last.
pub fn answer_text(alloc: Global, answer: &EditorAnswer) -> Result<Vec<u8>, AllocError>
    ensures { IfOk result (λ text. text.items ≡ answer_text answer.now) }
{
    match answer {
        EditorAnswer::Drafted(count) => numbered(alloc, b"draft ", *count),
        EditorAnswer::Published(published) => {
            let mut text = numbered(alloc, b"version ", published.version)?;
            add_lines(&mut text, published.dirty.as_slice())?;
            Ok(text)
        }
    }
}

/// The line of a fault, without its end.
pub fn fault_text(alloc: Global, fault: EditorFault) -> Result<Vec<u8>, AllocError>
    ensures { IfOk result (λ text. text.items ≡ fault_text fault) }
{
    match fault {
        EditorFault::BadPath => Vec::from_slice(alloc, b"BadPath"),
        EditorFault::DraftTooLarge => Vec::from_slice(alloc, b"DraftTooLarge"),
        EditorFault::NotUtf8 => Vec::from_slice(alloc, b"NotUtf8"),
        EditorFault::Stale { latest } => numbered(alloc, b"Stale ", latest),
        EditorFault::TreeTooLarge(fault) => {
            let mut text = Vec::from_slice(alloc, b"TreeTooLarge ")?;
            text.extend_from_slice(tree_fault_name(fault))?;
            Ok(text)
        }
        EditorFault::JournalFull { weight, promised } => full_line(alloc, weight, promised),
        EditorFault::BadMessage => Vec::from_slice(alloc, b"BadMessage"),
    }
}

// The name of a fault of a tree.
fn tree_fault_name(fault: TreeFault) -> &'static [u8]
    ensures { result.now ≡ tree_fault_name fault }
{
    match fault {
        TreeFault::TooManyFiles => b"TooManyFiles",
        TreeFault::FileTooLarge => b"FileTooLarge",
        TreeFault::TreeTooLarge => b"TreeTooLarge",
    }
}

// Adds each path on a line of its own.
fn add_lines(text: &mut Vec<u8>, paths: &[Path]) -> Result<(), AllocError>
    ensures { OnOk result (text.new.items ≡ text.old.items ++ on_lines paths.now) }
{
    for path in paths {
        add_line(text, path)?;
    }
    Ok(())
}

// Adds a path on a line of its own.
fn add_line(text: &mut Vec<u8>, path: &Path) -> Result<(), AllocError>
    ensures { OnOk result (text.new.items ≡ text.old.items ++ on_line path.now) }
{
    text.extend_from_slice(b"\n")?;
    text.extend_from_slice(path.as_bytes())
}

// A word and a number.
fn numbered(alloc: Global, word: &[u8], number: u64) -> Result<Vec<u8>, AllocError>
    ensures { IfOk result (λ line. line.items ≡ word.now ++ decimal number) }
{
    let mut line = Vec::from_slice(alloc, word)?;
    line.extend_from_slice(number.to_string(alloc)?.as_bytes())?;
    Ok(line)
}
