// What is made of a page.
ghost use Rattle.std.specs.Prelude.{IfOk, IsSome};
ghost use Rattle.compiled_pages.specs.Made.{IsMade};
ghost use Rattle.source_tree.specs.Limits.{IsWithinLimits};
ghost use Rattle.tree_pages.specs.Came.{HasCounted};
ghost use Rattle.unit_source.specs.Files.{text_in};

use compiled_pages::Made;
use edges::{Ledger, Steps};
use pg_text::Path;
use source_tree::Tree;
use std::alloc::{AllocError, Global};
use translator::translate;
use unit_build::build;

/// What is made of the page at a path of a tree where a file stands. `steps` counts the bytes of
/// the files that it needs, each once, unless memory runs out before they are read.
pub fn make<L: Ledger>(
    alloc: Global,
    tree: &Tree,
    path: &Path,
    steps: &mut Steps<L>,
) -> Result<Made, AllocError>
    requires limits { IsWithinLimits tree.now }
    requires stands { IsSome (text_in tree.now path.now) }
    ensures made { IfOk result (λ made. IsMade made tree.now path.now) }
    ensures counted { HasCounted tree.now path.now steps.old steps.new result }
{
    let unit = build(alloc, tree, path, steps)?;
    translate(alloc, &unit)
}
