ghost use Rattle.std.specs.Prelude.{ℕ, List, [], ◌∷◌, flat_map, ⊤};
ghost use Rattle.journal_reader.specs.Reads.{AreSo, Reads};

use crate::part::Part;
use crate::unread::Unread;
use edges::Source;
use pg_text::Failure;
use std::alloc::Global;

/// Reads the next `N` bytes, whatever they are: of the mark, of the seed, of a number. `room` falls
/// as `Part::read` says.
pub(crate) fn array<S: Source, const N: usize>(
    alloc: Global,
    source: &mut S,
    room: &mut u64,
) -> Result<[u8; N], Failure<Unread>>
    ensures { Reads (AreSo N (λ _. ⊤)) (flat_map (λ byte. byte ∷ [])) (S.left source.old)
        (S.left source.new) room.old room.new (S.faults source.old) (S.faults source.new) result }
{
    let mut bytes = [0; N];
    for at in 0..N {
        bytes[at] = u8::read(alloc, source, room)?;
    }
    Ok(bytes)
}

impl Part for u64 {
    ghost use Rattle.site_journal.specs.Codes.{IsNumber, of_number};

    ghost is = { λ number. IsNumber number };

    ghost text = { λ number. of_number number };

    fn read<S: Source>(
        alloc: Global,
        source: &mut S,
        room: &mut u64,
    ) -> Result<Self, Failure<Unread>> {
        let bytes = array::<S, 8>(alloc, source, room)?;
        Ok(u64::from_be_bytes(bytes))
    }
}

impl Part for i64 {
    ghost use Rattle.site_journal.specs.Codes.{IsInt, of_int};

    ghost is = { λ number. IsInt number };

    ghost text = { λ number. of_int number };

    fn read<S: Source>(
        alloc: Global,
        source: &mut S,
        room: &mut u64,
    ) -> Result<Self, Failure<Unread>> {
        let number = u64::read(alloc, source, room)?;
        Ok(number.cast_signed())
    }
}

impl Part for bool {
    ghost use Rattle.std.specs.Prelude.{⊤};
    ghost use Rattle.site_journal.specs.Codes.{of_truth};

    ghost is = { λ _. ⊤ };

    ghost text = { λ truth. of_truth truth };

    fn read<S: Source>(
        alloc: Global,
        source: &mut S,
        room: &mut u64,
    ) -> Result<Self, Failure<Unread>> {
        match u8::read(alloc, source, room)? {
            0 => Ok(false),
            1 => Ok(true),
            _ => Err(Failure::Fault(Unread::NotThere)),
        }
    }
}
