ghost use Rattle.std.specs.Prelude.{ℕ, List};
ghost use Rattle.journal_reader.specs.Reads.{Reads};

use crate::unread::Unread;
use edges::Source;
use pg_text::Failure;
use std::alloc::Global;

/// What a journal is made of.
pub trait Part {
    ghost is: { Self → Type 0 };

    ghost text: { Self → List ℕ };

    /// Reads the part that stands next. At most `room` bytes may be read, and it falls by those
    /// that were.
    fn read<S: Source>(
        alloc: Global,
        source: &mut S,
        room: &mut u64,
    ) -> Result<Self, Failure<Unread>>
        ensures { Reads is text (S.left source.old) (S.left source.new) room.old room.new (S.faults source.old)
            (S.faults source.new) result };
}

impl Part for u8 {
    ghost use Rattle.std.specs.Prelude.{[], ◌∷◌, ⊤};

    ghost is = { λ _. ⊤ };

    ghost text = { λ byte. byte ∷ [] };

    fn read<S: Source>(_: Global, source: &mut S, room: &mut u64) -> Result<Self, Failure<Unread>> {
        let mut one = [0; 1];
        let Ok(count) = source.read(&mut one) else {
            return Err(Failure::Fault(Unread::Failed));
        };
        if count == 0 {
            return Err(Failure::Fault(Unread::NotThere));
        }
        let Some(rest) = room.checked_sub(1) else {
            return Err(Failure::Fault(Unread::TooLong));
        };
        *room = rest;
        Ok(one[0])
    }
}

impl<A: Part + Drop, B: Part> Part for (A, B) {
    ghost use Rattle.std.specs.Prelude.{◌++◌};

    ghost is = { λ both. A.is both.0 × B.is both.1 };

    ghost text = { λ both. A.text both.0 ++ B.text both.1 };

    fn read<S: Source>(
        alloc: Global,
        source: &mut S,
        room: &mut u64,
    ) -> Result<Self, Failure<Unread>> {
        let first = A::read(alloc, source, room)?;
        let second = B::read(alloc, source, room)?;
        Ok((first, second))
    }
}
