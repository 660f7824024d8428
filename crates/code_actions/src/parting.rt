// One of two parts, by what stands on top of so many values, which the test and the parts take.
ghost use Rattle.std.specs.Prelude.{◌≡◌, false, IfOk};
ghost use Rattle.page_code.specs.Shapes.{up};
ghost use Rattle.page_code.specs.declared.instr.Instr.TheVariants as instr;
ghost use Rattle.code_forms.specs.Codes.{either_code};

use code_forms::{chosen, where_null};
use page_code::{Code, Shape};
use pg_text::Place;
use std::alloc::{AllocError, Global};

/// The code of the first part where the truth value on top is true, and else of the second.
pub(crate) fn chosen_above(
    alloc: Global,
    ground: &Shape,
    taken: usize,
    place: &Place,
    first: Code,
    second: Code,
) -> Result<Code, AllocError>
    ensures { IfOk result (λ code. code ≡ either_code (up taken ground.now) (up 0 ground.now) place.now
        (instr.JumpIf false) first second) }
{
    let before = ground.up(taken)?;
    chosen(alloc, &before, &ground.up(0)?, place, first, second)
}

/// The code of a part where null is on top, and of another where something else is.
pub(crate) fn where_null_above(
    alloc: Global,
    ground: &Shape,
    taken: usize,
    place: &Place,
    absent: Code,
    present: Code,
) -> Result<Code, AllocError>
    ensures { IfOk result (λ code. code ≡ either_code (up taken ground.now) (up 0 ground.now) place.now
        instr.JumpNull present absent) }
{
    let before = ground.up(taken)?;
    where_null(alloc, &before, &ground.up(0)?, place, absent, present)
}
