ghost use Rattle.std.specs.Prelude.{◌≡◌, ◌<◌, None, Some, IfOk, replicate, set, length};
ghost use Rattle.std.specs.Prelude.{slice_index_or};
ghost use Rattle.std.specs.Arc.{arc_value};
ghost use Rattle.std.specs.Option.{option_copied};

use source_tree::Tree;
use std::alloc::{AllocError, Global};
use std::marker::Model;
use std::sync::Arc;

/// Of each pass the tree that its request began with. Contracts see the list of them.
#[derive(Drop)]
pub struct Bases {
    trees: Vec<Option<Arc<Tree>>>,
}

impl Model for Bases {
    ghost use Rattle.std.specs.Prelude.{List, Option, map};
    ghost use Rattle.source_tree.specs.declared.file.File.{File};
    ghost use Rattle.journal_entries.specs.Bases.{tree_in_base};

    ghost Value = { List (Option (List File)) };

    ghost view = { λ b. map tree_in_base b.trees.items };
}

impl Bases {
    /// No request of these passes has begun.
    #[tactic(auto, using(crate::proofs::KeptBases::none_more))]
    pub fn new(alloc: Global, passes: u8) -> Result<Self, AllocError>
        ensures { IfOk result (λ bases. bases ≡ replicate passes None) }
    {
        let mut trees = Vec::with_capacity(alloc, passes as usize)?;
        for _pass in 0..passes {
            trees.push(None)?;
        }
        Ok(Bases { trees })
    }

    /// Keeps the tree of a request that begins.
    #[tactic(auto, using(crate::proofs::KeptBases::set_base))]
    pub fn begin(&mut self, pass: u8, tree: Arc<Tree>)
        requires { pass < length self.old }
        ensures { self.new ≡ set self.old pass (Some (arc_value tree)) }
    {
        self.trees[pass as usize] = Some(tree);
    }

    /// The tree that the request of a pass began with.
    pub fn get(&self, pass: u8) -> Option<&Tree>
        ensures { option_copied result ≡ slice_index_or self.now pass None }
    {
        match self.trees.get(pass as usize) {
            Some(Some(tree)) => Some(tree),
            _ => None,
        }
    }
}
