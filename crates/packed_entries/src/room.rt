ghost use Rattle.std.specs.Prelude.{◌≡◌, false, is_some, IsOk, IfOk};
ghost use Rattle.packed_entries.specs.Kinds.{stands_apart};

use crate::answered::Answered;
use site_words::{Op, Reply};
use std::alloc::{AllocError, Global};
use std::marker::Model;

/// The memory that an entry takes beside its slot. Contracts see whether there is any.
#[derive(Drop)]
pub struct Room {
    place: Option<Box<Answered>>,
}

impl Model for Room {
    ghost use Rattle.std.specs.Prelude.{Bool, is_some};

    ghost Value = { Bool };

    ghost view = { λ r. is_some r.place };
}

impl Room {
    /// That of an operation's entry.
    #[inline(always)]
    pub fn new(alloc: Global, op: &Op) -> Result<Self, AllocError>
        ensures room { IfOk result (λ room. room ≡ stands_apart op.now) }
        ensures slot { stands_apart op.now ≡ false → IsOk result }
    {
        if !stands_apart(op) {
            return Ok(Room { place: None });
        }
        // Any operation, until there is one for the place.
        let blank = Answered {
            op: Op::Roll,
            reply: Reply::Rolled,
        };
        Ok(Room {
            place: Some(Box::new(alloc, blank)?),
        })
    }

    /// The place itself.
    #[inline(always)]
    pub(crate) fn into_place(self) -> Option<Box<Answered>>
        ensures { is_some result ≡ self }
    {
        self.place
    }
}

// Whether the entry of an operation takes memory beside its slot.
fn stands_apart(op: &Op) -> bool
    ensures { result ≡ stands_apart op.now }
{
    matches!(
        op,
        Op::Publish { .. } | Op::App { .. } | Op::Snapshot { .. } | Op::Roll
    )
}
