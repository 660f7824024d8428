ghost use Rattle.std.specs.Prelude.{◌≡◌, length, IfOk};
ghost use Rattle.std.specs.Option.{option_map};
ghost use Rattle.pg_text.specs.Order.{AreRising, IsPlace, path_cmp};
ghost use Rattle.source_tree.specs.Limits.{IsWithinLimits};
ghost use Rattle.unit_source.specs.Files.{text_in};
ghost use Rattle.unit_source.specs.Placed.{root_view};
ghost use Rattle.unit_source.specs.ReadFiles.{source_at, source_path};
ghost use Rattle.unit_source.specs.Root.{root_at};

use crate::Root;
use crate::root::read_twice;
use crate::source_file::SourceFile;
use pg_text::Path;
use source_tree::Tree;
use std::alloc::{AllocError, Global};
use std::cmp::Ordering;
use std::marker::Model;

/// The files of a tree. The first reading of each is made once and kept, in byte order of the
/// paths. Contracts see the tree.
#[derive(Drop)]
pub struct UnitFiles<'a> {
    alloc: Global,
    tree: &'a Tree,
    read: Vec<SourceFile>,
}

impl<'a> Model for UnitFiles<'a> {
    ghost use Rattle.std.specs.Prelude.{List};
    ghost use Rattle.source_tree.specs.declared.file.File.{File};
    ghost use Rattle.source_tree.specs.Limits.{IsWithinLimits};
    ghost use Rattle.unit_source.specs.Files.{text_in};
    ghost use Rattle.pg_text.specs.Order.{AreRising};
    ghost use Rattle.unit_source.specs.ReadFiles.{AreOf, source_path};

    ghost Value = { List File };

    ghost view = { λ f. f.tree.now };

    ghost invariant = { λ f. IsWithinLimits f.tree.now × (AreOf (text_in f.tree.now) f.read.items
        × AreRising source_path f.read.items) };
}

impl<'a> UnitFiles<'a> {
    /// The files of a tree, none of which was read.
    pub fn new(alloc: Global, tree: &'a Tree) -> Self
        requires { IsWithinLimits tree.now }
        ensures { result ≡ tree.now }
    {
        UnitFiles {
            alloc,
            tree,
            read: Vec::new(alloc),
        }
    }

    pub(crate) fn alloc(&self) -> Global {
        self.alloc
    }

    /// The page or the tag file at a path, where a file stands there, read twice. Reading goes no
    /// deeper than a chain of 256 files, each with at most 128 levels of elements; in the nodes at
    /// most 64 elements stand around an include whose file is read.
    pub fn read_root(&mut self, path: &Path, in_tag: bool) -> Result<Option<Root>, AllocError>
        ensures root { IfOk result (λ root. option_map root_view root ≡ root_at (text_in self.old) in_tag path.now) }
        ensures files { self.new ≡ self.old }
    {
        match self.file(path)? {
            Some(source) => Ok(Some(read_twice(self, &source, in_tag)?)),
            None => Ok(None),
        }
    }

    // How many bytes the file at a path has, where one stands there.
    pub(crate) fn bytes_at(&self, path: &Path) -> Option<usize>
        ensures { result ≡ option_map (λ text. length text) (text_in self.now path.now) }
    {
        match self.tree.get(path) {
            Some(file) => Some(file.text.len()),
            None => None,
        }
    }

    // The file at a path, with its first reading.
    #[inline(never)]
    #[tactic(auto, using(crate::proofs::FileLemmas::file_within))]
    pub(crate) fn file(&mut self, path: &Path) -> Result<Option<SourceFile>, AllocError>
        ensures value { IfOk result (λ found. found ≡ source_at (text_in self.old) path.now) }
        ensures files { self.new ≡ self.old }
    {
        let at = match place_of(&self.read, path) {
            Ok(at) => return Ok(Some(self.read[at].copy()?)),
            Err(at) => at,
        };
        let Some(file) = self.tree.get(path) else {
            return Ok(None);
        };
        let source = SourceFile::read(self.alloc, path.copy()?, file.text.copy()?)?;
        self.read.insert(at, source.copy()?)?;
        Ok(Some(source))
    }
}

// The index of the file with this path, or the one at which it would stand.
fn place_of(files: &[SourceFile], path: &Path) -> Result<usize, usize>
    requires { AreRising source_path files.now }
    ensures { IsPlace source_path path.now files.now result }
{
    files.binary_search_by(|file| compare(file, path))
}

// How the path of a file stands to this path, by their bytes.
fn compare(file: &SourceFile, path: &Path) -> Ordering
    ensures { result ≡ path_cmp file.now.path path.now }
{
    file.path().as_bytes().cmp(path.as_bytes())
}
