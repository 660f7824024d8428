//! The program `unit_rows`: for each row of files on standard input, of which the first is a page,
//! what is told of that page.
//!
//! A row is some lines up to an empty one: first what is told, then a line for each file, its path,
//! a blank and its text. `unit` tells `ok` or the fault of the unit, behind `names` also the names
//! on which it depends, a dash before those of absent files, and behind `bytes` how many were
//! counted; `root` tells the nodes that stand in place and the names, and with a last line `holds`
//! whether these hold what is behind it. In writing `¶` ends a line, `§` declares the core tags,
//! and `«9 x»` is x nine times. A line that begins with `# ` says what the rows behind it show. The
//! lines are written as they are read, and behind each row, after `> `, comes what is told.
#![tactic(auto)]

mod files;
mod roots;
mod units;

use crate::files::{path_of, tree_of};
use pg_text::Path;
use row_text::written_out;
use source_tree::Tree;
use std::alloc::{AllocError, Global};
use std::io;

// What a sign stands for.
const SIGNS: [(&str, &str); 2] = [
    ("¶", "\n"),
    ("§", "<%@ taglib prefix=\"c\" uri=\"jakarta.tags.core\" %>"),
];

fn main(rt: HostRuntime) -> io::Result<()> {
    let alloc = rt.alloc();
    let mut row = Vec::new(alloc);
    for line in rt.lines(alloc) {
        let line = line?;
        println!(rt; "{}", line.as_str())?;
        if line.starts_with("# ") {
            continue;
        }
        if !line.is_empty() {
            row.push(written_out(alloc, line.as_str(), &SIGNS)?)?;
        } else if !row.is_empty() {
            println!(rt; "> {}\n", row_told(alloc, &row)?.as_str())?;
            row.clear();
        }
    }
    Ok(())
}

// What is told of these lines.
fn row_told(alloc: Global, lines: &[String]) -> Result<String, AllocError> {
    let Some((first, files)) = lines.split_first() else {
        return String::from_str(alloc, "nothing is told");
    };
    let Some(tree) = tree_of(alloc, files)? else {
        return String::from_str(alloc, "no tree");
    };
    match files.first() {
        Some(page) => match path_of(alloc, page.as_str())? {
            Some(path) => page_told(alloc, first.as_str(), files, &tree, &path),
            None => String::from_str(alloc, "no path"),
        },
        None => String::from_str(alloc, "no page"),
    }
}

// What is told of the page at a path.
fn page_told(
    alloc: Global,
    words: &str,
    files: &[String],
    tree: &Tree,
    path: &Path,
) -> Result<String, AllocError> {
    if words.starts_with("unit") {
        return units::unit_told(alloc, tree, path, words);
    }
    let told = roots::root_told(alloc, tree, path)?;
    let part = match files.last() {
        Some(line) => line.as_str().strip_prefix("holds "),
        None => None,
    };
    match part {
        Some(part) => format!(in alloc; "{}", told.as_str().contains(part)),
        None => Ok(told),
    }
}
