ghost use Rattle.std.specs.Prelude.{◌≡◌, ◌≤◌, true, [], ◌++◌, ◌∷◌, length, OnOk, OnErr};
ghost use Rattle.editor.specs.Draft.{edit_bytes, is_draft};

use crate::limits::{MAX_DRAFT_BYTES, MAX_DRAFT_EDITS};
use source_tree::{Edit, Edits};
use std::alloc::{AllocError, Global};
use std::marker::Model;

/// The edits of a connection that wait to be published. In contracts a draft is the list of its
/// edits.
#[derive(Drop)]
pub struct Draft {
    edits: Edits,
    bytes: usize,
}

impl Model for Draft {
    ghost use Rattle.std.specs.Prelude.{◌≡◌, ◌≤◌, List, length};
    ghost use Rattle.source_tree.specs.declared.edit.Edit.{Edit};
    ghost use Rattle.editor.specs.declared.limits.TheConstants.{MAX_DRAFT_BYTES, MAX_DRAFT_EDITS};
    ghost use Rattle.editor.specs.Draft.{draft_bytes};

    ghost Value = { List Edit };

    ghost view = { λ d. d.edits };

    ghost invariant = { λ d. (d.bytes ≡ draft_bytes d.edits) × (length d.edits ≤ MAX_DRAFT_EDITS)
        × (d.bytes ≤ MAX_DRAFT_BYTES) };
}

impl Draft {
    /// A draft without edits, as a connection begins with.
    pub fn new(alloc: Global) -> Self
        ensures { result ≡ [] }
    {
        Draft {
            edits: Edits::new(alloc),
            bytes: 0,
        }
    }

    /// How many edits there are.
    pub fn len(&self) -> usize
        ensures count { result ≡ length self.now }
        ensures few { result ≤ MAX_DRAFT_EDITS }
    {
        let _ = &self.bytes;
        self.edits.len()
    }

    /// The edits, in the order in which they came.
    pub fn edits(&self) -> &Edits
        ensures { result.now ≡ self.now }
    {
        &self.edits
    }

    /// Whether the draft can hold the edit, too.
    #[tactic(auto, unfolding(crate::specs::Draft::is_draft))]
    pub(crate) fn has_room(&self, edit: &Edit) -> bool
        ensures { result ≡ is_draft (self.now ++ edit.now ∷ []) }
    {
        self.edits.len() < MAX_DRAFT_EDITS && text_bytes(edit) <= MAX_DRAFT_BYTES - self.bytes
    }

    /// Adds an edit.
    pub(crate) fn push(&mut self, edit: Edit) -> Result<(), AllocError>
        requires { is_draft (self.old ++ edit ∷ []) ≡ true }
        ensures ok { OnOk result (self.new ≡ self.old ++ edit ∷ []) }
        ensures err { OnErr result (self.new ≡ self.old) }
    {
        let more = text_bytes(&edit);
        self.edits.push(edit)?;
        self.bytes += more;
        Ok(())
    }

    /// Drops all edits.
    pub(crate) fn clear(&mut self)
        ensures { self.new ≡ [] }
    {
        self.edits.clear();
        self.bytes = 0;
    }
}

// The bytes of the text that an edit puts.
fn text_bytes(edit: &Edit) -> usize
    ensures { result ≡ edit_bytes edit.now }
{
    match edit {
        Edit::Put(_, text) => text.len(),
        Edit::Delete(_) => 0,
    }
}
