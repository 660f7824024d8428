use crate::listed::path;
use pg_text::{BadPath, Failure};
use source_tree::{Edit, Edits, FileText, Tree};
use std::alloc::Global;

/// The versions of a tree that begins empty. Each puts files at these paths, with its number as
/// their stamp, from 1 on.
pub fn of_changes(alloc: Global, changes: &[&[&str]]) -> Result<Vec<Tree>, Failure<BadPath>> {
    let mut trees = Vec::new(alloc);
    let mut stamp: u64 = 0;
    for paths in changes {
        stamp = stamp.saturating_add(1);
        let tree = next(alloc, trees.last(), paths, stamp)?;
        trees.push(tree)?;
    }
    Ok(trees)
}

// The tree after the one before it. One that passes a limit is empty.
fn next(
    alloc: Global,
    before: Option<&Tree>,
    paths: &[&str],
    stamp: u64,
) -> Result<Tree, Failure<BadPath>> {
    let edits = puts(alloc, paths)?;
    let empty = Tree::new(alloc);
    match before.unwrap_or(&empty).apply(&edits, stamp) {
        Ok(tree) => Ok(tree),
        Err(Failure::NoMemory) => Err(Failure::NoMemory),
        Err(Failure::Fault(_)) => Ok(Tree::new(alloc)),
    }
}

// Edits that put a file at each path.
fn puts(alloc: Global, paths: &[&str]) -> Result<Edits, Failure<BadPath>> {
    let mut edits = Edits::new(alloc);
    for text in paths {
        edits.push(Edit::Put(path(alloc, text)?, FileText::copy_of(alloc, text)?))?;
    }
    Ok(edits)
}
