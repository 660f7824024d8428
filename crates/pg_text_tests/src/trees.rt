use crate::paths::are;
use pg_text::{BadPath, Failure, Names, Path, resolve};
use source_tree::{Edit, Edits, File, FileText, MAX_FILE_BYTES, MAX_FILES, Tree, TreeFault};
use std::alloc::{AllocError, Global};
use std::test::Fail;

fn put(alloc: Global, path: &str, text: &str) -> Result<Edit, Failure<BadPath>> {
    let path = resolve(alloc, None, path)?;
    Ok(Edit::Put(path, FileText::copy_of(alloc, text)?))
}

// An edit that puts a file, whose text stands behind a blank, or deletes the file of a path.
fn edit_of(alloc: Global, line: &str) -> Result<Edit, Failure<BadPath>> {
    match line.split_once(' ') {
        Some((path, text)) => put(alloc, path, text),
        None => Ok(Edit::Delete(resolve(alloc, None, line)?)),
    }
}

// The edits of these lines, in place of those that were there.
fn anew(alloc: Global, mut edits: Edits, lines: &[&str]) -> Result<Edits, Failure<BadPath>> {
    edits.clear();
    for line in lines {
        edits.push(edit_of(alloc, line)?)?;
    }
    Ok(edits)
}

fn edits_of(alloc: Global, lines: &[&str]) -> Result<Edits, Failure<BadPath>> {
    anew(alloc, Edits::new(alloc), lines)
}

// The tree of these edits.
fn tree_of(alloc: Global, lines: &[&str]) -> Result<Tree, Fail> {
    let edits = edits_of(alloc, lines)?;
    Ok(Tree::new(alloc).apply(&edits, 1)?)
}

// A file in short: its path, its text and its stamp.
#[derive(Clone, Copy)]
struct Row<'a>(&'a str, &'a str, u64);

fn is_row(file: &File, row: &Row<'_>) -> bool {
    file.path.as_str() == row.0 && file.text.as_str() == row.1 && file.stamp == row.2
}

// Whether the tree has these files, in this order, and no other.
fn has_files(tree: &Tree, rows: &[Row<'_>]) -> bool {
    for (file, row) in tree.iter().zip(rows) {
        if !is_row(file, row) {
            return false;
        }
    }
    tree.len() == rows.len()
}

const LINES: [&str; 4] = ["/b.jsp first", "/c.jsp c", "/a.jsp a", "/b.jsp b"];

const FILES: [Row<'static>; 3] = [
    Row("/a.jsp", "a", 1),
    Row("/b.jsp", "b", 1),
    Row("/c.jsp", "c", 1),
];

#[test]
fn edits_make_a_tree(rt: HostRuntime) -> Result<(), Fail> {
    assert!(rt; has_files(&tree_of(rt.alloc(), &LINES)?, &FILES));
    Ok(())
}

// Edits in place of one that is done no more.
fn further_edits(alloc: Global) -> Result<Edits, Failure<BadPath>> {
    let edits = edits_of(alloc, &["/x.jsp x"])?;
    anew(alloc, edits, &["/c.jsp c", "/a.jsp", "/aa.jsp"])
}

// The tree that they make of another.
fn further(alloc: Global, tree: &Tree) -> Result<Tree, Fail> {
    let edits = further_edits(alloc)?;
    Ok(tree.apply(&edits, 2)?)
}

const EARLIER: [&str; 3] = ["/b.jsp b", "/c.jsp c", "/a.jsp a"];

const LATER: [Row<'static>; 2] = [Row("/b.jsp", "b", 1), Row("/c.jsp", "c", 2)];

// Whether they make another tree, and leave this one.
fn is_made_anew(alloc: Global) -> Result<bool, Fail> {
    let tree = tree_of(alloc, &EARLIER)?;
    let has_later = has_files(&further(alloc, &tree)?, &LATER);
    Ok(has_later && tree.len() == 3)
}

#[test]
fn edits_make_a_tree_of_another(rt: HostRuntime) -> Result<(), Fail> {
    assert!(rt; is_made_anew(rt.alloc())?);
    Ok(())
}

// Whether the file at the path has this text. It is empty where there is no file.
fn has_text(tree: &Tree, path: &Path, text: &str) -> bool {
    match tree.get(path) {
        Some(file) => tree.has(path) && file.text.as_str() == text,
        None => !tree.has(path) && text.is_empty(),
    }
}

// The same of a path in writing.
fn is_found(alloc: Global, tree: &Tree, path: &str, text: &str) -> Result<bool, Failure<BadPath>> {
    let path = resolve(alloc, None, path)?;
    Ok(has_text(tree, &path, text))
}

// Files, each with its path as its text.
const FOUR: [&str; 4] = ["/b /b", "/a/b /a/b", "/a-b /a-b", "/ab /ab"];

const FOUND: [(&str, &str); 6] = [
    ("/b", "/b"),
    ("/a/b", "/a/b"),
    ("/a-b", "/a-b"),
    ("/ab", "/ab"),
    ("/a", ""),
    ("/c", ""),
];

#[test]
fn a_file_is_found_by_its_path(rt: HostRuntime) -> Result<(), Fail> {
    let tree = tree_of(rt.alloc(), &FOUR)?;
    for &(path, text) in &FOUND {
        assert!(rt; matches!(is_found(rt.alloc(), &tree, path, text), Ok(true)));
    }
    Ok(())
}

// Adds an edit that puts a file with this text, whose name is a number.
fn add_file(alloc: Global, edits: &mut Edits, text: &str) -> Result<(), Failure<BadPath>> {
    let number = edits.len();
    let edit = put(alloc, format!(in alloc; "/{number}")?.as_str(), text)?;
    edits.push(edit)?;
    Ok(())
}

fn add_files(
    alloc: Global,
    edits: &mut Edits,
    count: usize,
    text: &str,
) -> Result<(), Failure<BadPath>> {
    for _ in 0..count {
        add_file(alloc, edits, text)?;
    }
    Ok(())
}

// Adds so many of these edits, for files of so many bytes.
fn add_sized(
    alloc: Global,
    edits: &mut Edits,
    count: usize,
    bytes: usize,
) -> Result<(), Failure<BadPath>> {
    let text = "x".repeat(alloc, bytes)?;
    add_files(alloc, edits, count, text.as_str())
}

// Adds edits for so many files of so many bytes, and for one more of so many.
fn fill(
    alloc: Global,
    edits: &mut Edits,
    count: usize,
    bytes: usize,
    more: Option<usize>,
) -> Result<(), Failure<BadPath>> {
    add_sized(alloc, edits, count, bytes)?;
    match more {
        Some(bytes) => add_sized(alloc, edits, 1, bytes),
        None => Ok(()),
    }
}

// Whether a tree was made of so many files, or this is its fault.
fn is_made(made: &Result<Tree, Failure<TreeFault>>, wanted: Result<usize, TreeFault>) -> bool {
    match made {
        Ok(tree) => wanted == Ok(tree.len()),
        Err(Failure::Fault(fault)) => wanted == Err(*fault),
        Err(Failure::NoMemory) => false,
    }
}

fn is_sized(
    alloc: Global,
    count: usize,
    bytes: usize,
    more: Option<usize>,
    wanted: Result<usize, TreeFault>,
) -> Result<bool, Failure<BadPath>> {
    let mut edits = Edits::new(alloc);
    fill(alloc, &mut edits, count, bytes, more)?;
    Ok(is_made(&Tree::new(alloc).apply(&edits, 0), wanted))
}

type Limits = (usize, usize, Option<usize>, Result<usize, TreeFault>);

const SIZES: [Limits; 5] = [
    (MAX_FILES, 0, None, Ok(4_096)),
    (MAX_FILES, 0, Some(0), Err(TreeFault::TooManyFiles)),
    (64, MAX_FILE_BYTES, None, Ok(64)),
    (64, MAX_FILE_BYTES, Some(1), Err(TreeFault::TreeTooLarge)),
    (
        64,
        MAX_FILE_BYTES,
        Some(1_048_577),
        Err(TreeFault::FileTooLarge),
    ),
];

#[test]
fn trees_have_limits(rt: HostRuntime) {
    for &(count, bytes, more, wanted) in &SIZES {
        assert!(rt; matches!(is_sized(rt.alloc(), count, bytes, more, wanted), Ok(true)));
    }
}

// The names that the edits change, which are copied.
fn changed_by(tree: &Tree, edits: &Edits) -> Result<Names, AllocError> {
    tree.changed(&edits.copy()?)
}

fn changed(alloc: Global) -> Result<Names, Fail> {
    let tree = tree_of(alloc, &["/b b", "/d d"])?;
    let edits = edits_of(alloc, &["/d", "/none", "/c same", "/b same", "/c same"])?;
    Ok(changed_by(&tree, &edits)?)
}

#[test]
fn changed_names_are_those_put_and_those_deleted_that_were_there(
    rt: HostRuntime,
) -> Result<(), Fail> {
    assert!(rt; are(&changed(rt.alloc())?, &["/b", "/c", "/d"]));
    Ok(())
}
