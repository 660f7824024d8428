// The unit of a page, as it is told.
ghost use Rattle.std.specs.Prelude.{◌≡◌, ◌<◌};

use edges::{Counting, Steps};
use pg_text::Path;
use source_tree::Tree;
use std::alloc::{AllocError, Global};
use std::marker::Brand;
use std::sync::ledger::{Blank, Ledger};
use unit_build::build;
use unit_nodes::{Unit, UnitBody};

/// What is told of the unit of the page at a path, with what these words ask beside its body: `ok`
/// or its fault; the names on which it depends, a dash before those of absent files; and the bytes
/// that were counted for it.
pub fn unit_told(
    alloc: Global,
    tree: &Tree,
    path: &Path,
    words: &str,
) -> Result<String, AllocError> {
    match counted::<Brand>(alloc, Blank::new(1), tree, path)? {
        Some((unit, bytes)) => shown(alloc, &unit, words, bytes),
        None => String::from_str(alloc, "no file stands there, or the tree is too large"),
    }
}

// The unit of a page, where it is there, and the bytes that were counted for it.
fn counted<N: Ledger>(
    alloc: Global,
    blank: Blank,
    tree: &Tree,
    path: &Path,
) -> Result<Option<(Unit, u64)>, AllocError>
    requires name { blank.name ≡ N.name }
    requires parts { blank.parts ≡ N.parts }
    requires some { 0 < N.parts }
{
    let None = tree.fault() else {
        return Ok(None);
    };
    let Some(_) = tree.get(path) else {
        return Ok(None);
    };
    let mut steps = Steps::<Counting<N>>::counting(blank);
    let unit = build(alloc, tree, path, &mut steps)?;
    Ok(Some((unit, steps.count())))
}

fn shown(alloc: Global, unit: &Unit, words: &str, bytes: u64) -> Result<String, AllocError> {
    let mut out = match &unit.body {
        UnitBody::Good(_) => String::from_str(alloc, "ok")?,
        UnitBody::Bad(found) => {
            let (number, name) = (found.fault.number(), found.fault.name());
            let (line, column) = (found.place.line, found.place.column);
            let file = found.place.file.as_str();
            format!(in alloc; "E{number} {name} {file}:{line}:{column}")?
        }
    };
    if words.contains("names") {
        for need in unit.deps.as_slice() {
            out.push_str(if need.stamp.is_some() { " " } else { " -" })?;
            out.push_str(need.name.as_str())?;
        }
    }
    if words.contains("bytes") {
        write!(out, " {bytes}")?;
    }
    Ok(out)
}
