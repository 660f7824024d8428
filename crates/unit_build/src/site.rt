ghost use Rattle.std.specs.Prelude.{◌≡◌, IfOk};
ghost use Rattle.std.specs.Option.{option_map};
ghost use Rattle.source_tree.specs.Limits.{IsWithinLimits};
ghost use Rattle.unit_source.specs.Files.{text_in};
ghost use Rattle.unit_source.specs.Placed.{root_view};
ghost use Rattle.unit_source.specs.Root.{root_at};

use pg_text::{Path, Text};
use source_tree::Tree;
use std::alloc::{AllocError, Global};
use std::marker::Model;
use unit_source::{Root, UnitFiles};

/// The files of a site, from which a unit is read. Contracts see the tree.
#[derive(Drop)]
pub(crate) struct Site<'t> {
    tree: &'t Tree,
    files: UnitFiles<'t>,
}

impl<'t> Model for Site<'t> {
    ghost use Rattle.std.specs.Prelude.{◌≡◌, List};
    ghost use Rattle.source_tree.specs.declared.file.File.{File};

    ghost Value = { List File };

    ghost view = { λ s. s.tree.now };

    ghost invariant = { λ s. s.files ≡ s.tree.now };
}

impl<'t> Site<'t> {
    /// The files of a tree.
    pub fn new(alloc: Global, tree: &'t Tree) -> Self
        requires { IsWithinLimits tree.now }
        ensures { result ≡ tree.now }
    {
        Site {
            tree,
            files: UnitFiles::new(alloc, tree),
        }
    }

    /// The text of the file at a path.
    pub fn text(&self, path: &Path) -> Option<&Text>
        ensures { option_map (λ text. text.now) result ≡ text_in self.now path.now }
    {
        match self.tree.get(path) {
            Some(file) => Some(&file.text),
            None => None,
        }
    }

    /// The page or the tag file at a path, read twice.
    pub fn root(&mut self, path: &Path, in_tag: bool) -> Result<Option<Root>, AllocError>
        ensures root { IfOk result (λ root. option_map root_view root ≡ root_at (text_in self.old) in_tag path.now) }
        ensures site { self.new ≡ self.old }
    {
        self.files.read_root(path, in_tag)
    }
}
