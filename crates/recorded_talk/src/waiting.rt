// Two moments behind those of a talk: where exactly these were taken, the two are left.
ghost use Rattle.std.specs.Prelude.{◌≡◌, ◌<◌, ◌∷◌, [], vec_len, IfOk};
ghost use Rattle.std.specs.Bool.{Decides};
ghost use Rattle.talk_law.specs.RightTalk.{with_two};

use edges::{Clock, MemClock};
use std::alloc::AllocError;

/// The moments with two more.
pub(crate) fn with_two(mut moments: Vec<u64>) -> Result<Vec<u64>, AllocError>
    ensures moments { IfOk result (λ more. more.items ≡ with_two moments.items) }
    ensures some { IfOk result (λ more. 0 < vec_len more) }
{
    moments.push(0)?;
    moments.push(0)?;
    Ok(moments)
}

/// Whether exactly the two are left. Afterwards the clock tells nothing of that any more.
pub(crate) fn are_left(clock: &mut MemClock) -> bool
    ensures { Decides result (clock.old ≡ 0 ∷ 0 ∷ []) }
{
    if clock.left() != 2 || clock.now() != 0 {
        return false;
    }
    clock.now() == 0
}
