ghost use Rattle.std.specs.Prelude.{◌≡◌};
ghost use Rattle.site_words.specs.Trees.{agrees, opt_eq};
ghost use Rattle.source_tree.specs.Stamps.{stamp_of};

use site_words::Compiled;
use source_tree::{Need, Tree};

/// Whether the needs of a value stand so in the tree.
pub fn fits<P: Compiled>(made: &P, tree: &Tree) -> bool
    ensures { result ≡ agrees (P.needed made.now) tree.now }
{
    agree(made.stamps().as_slice(), tree)
}

fn agree(needs: &[Need], tree: &Tree) -> bool
    ensures { result ≡ agrees needs.now tree.now }
{
    for need in needs {
        if !stands(need, tree) {
            return false;
        }
    }
    true
}

// Whether the name stands so in the tree.
fn stands(need: &Need, tree: &Tree) -> bool
    ensures { result ≡ opt_eq (stamp_of need.now.name tree.now) need.now.stamp }
{
    match (tree.get(&need.name), need.stamp) {
        (Some(file), Some(stamp)) => file.stamp == stamp,
        (None, None) => true,
        _ => false,
    }
}
