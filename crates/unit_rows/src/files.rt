// Files on lines.
use pg_text::{Failure, Path, resolve};
use source_tree::{Edit, Edits, FileText, Tree};
use std::alloc::{AllocError, Global};

/// The path at the front of a line, where one stands there.
pub fn path_of(alloc: Global, line: &str) -> Result<Option<Path>, AllocError> {
    let (path, _) = line.split_once(' ').unwrap_or((line, ""));
    match resolve(alloc, None, path) {
        Ok(path) => Ok(Some(path)),
        Err(Failure::Fault(_)) => Ok(None),
        Err(Failure::NoMemory) => Err(AllocError),
    }
}

/// The tree of the files on these lines, or None where it is too large. Lines without a path have
/// no file.
pub fn tree_of(alloc: Global, lines: &[String]) -> Result<Option<Tree>, AllocError> {
    let mut edits = Edits::new(alloc);
    for line in lines {
        let (front, text) = line.as_str().split_once(' ').unwrap_or((line.as_str(), ""));
        if front.starts_with('/') {
            if let Some(path) = path_of(alloc, line.as_str())? {
                edits.push(Edit::Put(path, FileText::copy_of(alloc, text)?))?;
            }
        }
    }
    match Tree::new(alloc).apply(&edits, 1) {
        Ok(tree) => Ok(Some(tree)),
        Err(Failure::Fault(_)) => Ok(None),
        Err(Failure::NoMemory) => Err(AllocError),
    }
}
