ghost use Rattle.std.specs.Prelude.{◌≡◌, ◌++◌, ◌∷◌, [], OnOk};
ghost use Rattle.unit_source.specs.InPlace.{done};
ghost use Rattle.unit_source.specs.ReadSplice.{found_of};

use crate::{Entry, PlacedNode};
use std::alloc::{AllocError, Global};
use std::collections::VecDeque;

// What an include directive came to, and the nodes of its file.
#[derive(Drop)]
pub(crate) struct FoundNodes {
    pub entry: Entry,
    pub nodes: Vec<PlacedNode>,
}

impl FoundNodes {
    // Nothing is read.
    pub fn nothing(alloc: Global, entry: Entry) -> Self
        ensures { found_of result ≡ record { entry = entry; nodes = done } }
    {
        FoundNodes {
            entry,
            nodes: Vec::new(alloc),
        }
    }
}

// What one include directive more came to goes to the back.
#[inline(never)]
pub(crate) fn push_found(
    found: &mut VecDeque<FoundNodes>,
    next: FoundNodes,
) -> Result<(), AllocError>
    ensures { OnOk result (found.new.items ≡ found.old.items ++ next ∷ []) }
{
    found.push_back(next)?;
    Ok(())
}
