// What is told of a tree: all of it, the fault that broke the reading off, or how much there is.
ghost use Rattle.std.specs.Prelude.{◌≤◌, length};
ghost use Rattle.source_tree.specs.declared.limits.TheConstants.{MAX_FILE_BYTES};

use crate::settings::{page_path, setting};
use crate::trees::{show_place, shown};
use page_reader::{Node, PageFault, PageTree, read_page, read_under};
use pg_text::Path;
use source_tree::MAX_FILE_BYTES;
use std::alloc::{AllocError, Global};

/// What is told of the page with this text; where a part is asked for, whether it is told.
pub fn reading_told(
    alloc: Global,
    kind: &str,
    words: &str,
    text: &str,
    part: Option<&String>,
) -> Result<String, AllocError> {
    let told = page_told(alloc, kind, words, text)?;
    match part {
        Some(part) => format!(in alloc; "{}", told.as_str().contains(part.as_str())),
        None => Ok(told),
    }
}

fn page_told(alloc: Global, kind: &str, words: &str, text: &str) -> Result<String, AllocError> {
    if text.len() > MAX_FILE_BYTES {
        return String::from_str(alloc, "the text is too long");
    }
    let path = page_path(alloc)?;
    if kind == "first" {
        return tree_told(alloc, words, &read_page(alloc, &path, text)?);
    }
    under_told(alloc, &path, words, text)
}

// What is told of a page that is read under a setting.
fn under_told(alloc: Global, path: &Path, words: &str, text: &str) -> Result<String, AllocError>
    requires { length text.now ≤ MAX_FILE_BYTES }
{
    let setting = setting(alloc, words)?;
    tree_told(alloc, words, &read_under(alloc, path, text, &setting)?)
}

// What these words ask of a tree.
fn tree_told(alloc: Global, words: &str, tree: &PageTree) -> Result<String, AllocError> {
    if words.contains("stop") {
        return stop_told(alloc, &tree.stop);
    }
    if words.contains("sizes") {
        return sizes_told(alloc, tree);
    }
    shown(alloc, tree)
}

// The number and the place of the fault that broke the reading off.
fn stop_told(alloc: Global, stop: &Option<PageFault>) -> Result<String, AllocError> {
    let mut out = String::new(alloc);
    match stop {
        Some(fault) => {
            let number = fault.fault.number();
            write!(out, "E{number} ")?;
            show_place(&mut out, &fault.place)?;
        }
        None => out.push_str("none")?,
    }
    Ok(out)
}

// How many nodes a whole tree has, and what the last of them is; of one that isn't whole, where the
// reading breaks off.
fn sizes_told(alloc: Global, tree: &PageTree) -> Result<String, AllocError> {
    if let Some(fault) = &tree.stop {
        let byte = fault.place.byte;
        return format!(in alloc; "stops at byte {byte}");
    }
    let count = tree.nodes.len();
    match tree.nodes.as_slice().last() {
        Some(Node::Expr { place, .. }) => {
            let byte = place.byte;
            format!(in alloc; "{count} nodes, an expression at byte {byte}")
        }
        Some(Node::Directive { name, .. }) => {
            format!(in alloc; "{count} nodes, a directive {}", name.as_str())
        }
        Some(Node::Element(element)) => {
            let attributes = element.attributes.as_slice().len();
            let repeats = element.attributes.repeats();
            format!(in alloc; "{count} nodes, an element of {attributes} attributes: {repeats}")
        }
        _ => format!(in alloc; "{count} nodes"),
    }
}
