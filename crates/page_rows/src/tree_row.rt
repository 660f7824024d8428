// Rows of the files of a tree: a line is a path, a blank and the file's text. The page that runs is
// the first file. In writing `¶` ends a line, and `«9 x»` is x nine times.
ghost use Rattle.std.specs.Prelude.{◌≡◌, ◌<◌};

use crate::surroundings::Surroundings;
use crate::tree_run::run_page;
use crate::unreadable::Unreadable;
use pg_text::{Path, resolve};
use row_text::written_out;
use source_tree::{Edit, Edits, FileText, Tree};
use std::alloc::{AllocError, Global};
use std::marker::Brand;
use std::sync::ledger::{Blank, Ledger};

// A row that is read: the files of its tree, the page that runs, and what surrounds the run.
#[derive(Drop)]
struct Row {
    edits: Edits,
    page: Option<Path>,
    surroundings: Surroundings,
}

impl Row {
    // A row of no line.
    fn empty(alloc: Global) -> Result<Self, AllocError> {
        let surroundings = Surroundings::plain(alloc, "end rest asked")?;
        Ok(Row {
            edits: Edits::new(alloc),
            page: None,
            surroundings,
        })
    }

    // One line more.
    fn add(&mut self, alloc: Global, line: &str) -> Result<(), Unreadable> {
        let (first, rest) = line.split_once(' ').unwrap_or((line, ""));
        if !first.starts_with('/') {
            return self.surroundings.add(alloc, first, rest);
        }
        let path = resolve(alloc, None, first)?;
        self.run(&path)?;
        self.put(alloc, path, rest)
    }

    // Of the paths of all files the first is that of the page that runs.
    fn run(&mut self, path: &Path) -> Result<(), AllocError> {
        if self.page.is_none() {
            self.page = Some(path.copy()?);
        }
        Ok(())
    }

    // A file more.
    fn put(&mut self, alloc: Global, path: Path, text: &str) -> Result<(), Unreadable> {
        let text = FileText::copy_of(alloc, text)?;
        self.edits.push(Edit::Put(path, text))?;
        Ok(())
    }

    // One line more, as it is written.
    fn add_written(&mut self, alloc: Global, line: &str) -> Result<(), Unreadable> {
        let line = written_out(alloc, line, &[("¶", "\n")])?;
        self.add(alloc, line.as_str())
    }

    fn add_all(&mut self, alloc: Global, lines: &[String]) -> Result<(), Unreadable> {
        for line in lines {
            self.add_written(alloc, line.as_str())?;
        }
        Ok(())
    }

    // What is told once these lines were added.
    fn page_told(&mut self, alloc: Global, lines: &[String]) -> Result<String, Unreadable> {
        self.add_all(alloc, lines)?;
        match &self.page {
            Some(page) => tree_told(alloc, &self.edits, page, &mut self.surroundings),
            None => Err(Unreadable::Word("no page runs")),
        }
    }
}

fn tree_of(alloc: Global, edits: &Edits) -> Result<Tree, Unreadable> {
    match Tree::new(alloc).apply(edits, 1) {
        Ok(tree) => Ok(tree),
        Err(_) => Err(Unreadable::Word("the tree is too large")),
    }
}

/// What is told of the page of these lines.
pub fn page_told(alloc: Global, lines: &[String]) -> Result<String, Unreadable> {
    let mut row = Row::empty(alloc)?;
    row.page_told(alloc, lines)
}

// What is told of the page at a path of a tree of these edits.
fn tree_told(
    alloc: Global,
    edits: &Edits,
    page: &Path,
    surroundings: &mut Surroundings,
) -> Result<String, Unreadable> {
    let tree = tree_of(alloc, edits)?;
    run_told::<Brand>(alloc, Blank::new(1), &tree, page, surroundings)
}

// What is told of the page at a path.
fn run_told<N: Ledger>(
    alloc: Global,
    blank: Blank,
    tree: &Tree,
    path: &Path,
    surroundings: &mut Surroundings,
) -> Result<String, Unreadable>
    requires name { blank.name ≡ N.name }
    requires parts { blank.parts ≡ N.parts }
    requires some { 0 < N.parts }
{
    let None = tree.fault() else {
        return Err(Unreadable::Word("the tree is too large"));
    };
    let Some(_) = tree.get(path) else {
        return Err(Unreadable::Word("no file stands there"));
    };
    Ok(run_page::<N>(alloc, blank, tree, path, surroundings)?)
}
