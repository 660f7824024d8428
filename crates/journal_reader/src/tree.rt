ghost use Rattle.journal_reader.specs.Reads.{Sorts};
ghost use Rattle.source_tree.specs.Order.{IsInOrder};

use crate::part::Part;
use crate::unread::Unread;
use edges::Source;
use pg_text::{Failure, Listed, Path, Text};
use source_tree::{File, Tree};
use std::alloc::Global;

impl Part for File {
    ghost use Rattle.site_journal.specs.Journal.{of_file};
    ghost use Rattle.site_journal.specs.Reading.{IsFile};

    ghost is = { λ file. IsFile file };

    ghost text = { λ file. of_file file };

    fn read<S: Source>(
        alloc: Global,
        source: &mut S,
        room: &mut u64,
    ) -> Result<Self, Failure<Unread>> {
        let parts = <((Path, u64), Text)>::read(alloc, source, room)?;
        let ((path, stamp), text) = parts;
        Ok(File { path, text, stamp })
    }
}

impl Part for Tree {
    ghost use Rattle.site_journal.specs.Codes.{IsList, of_list};
    ghost use Rattle.site_journal.specs.Journal.{of_file};
    ghost use Rattle.site_journal.specs.Reading.{IsFile};

    ghost is = { λ tree. IsList IsFile tree × IsInOrder tree };

    ghost text = { λ tree. of_list of_file tree };

    fn read<S: Source>(
        alloc: Global,
        source: &mut S,
        room: &mut u64,
    ) -> Result<Self, Failure<Unread>> {
        let files = Listed::<File>::read(alloc, source, room)?;
        tree_of(files)
    }
}

// The tree of these files, where their paths rise in byte order.
fn tree_of(files: Listed<File>) -> Result<Tree, Failure<Unread>>
    ensures { Sorts (λ tree. tree) IsInOrder files result }
{
    match Tree::of_files(files.into_vec()) {
        Some(tree) => Ok(tree),
        None => Err(Failure::Fault(Unread::NotThere)),
    }
}
