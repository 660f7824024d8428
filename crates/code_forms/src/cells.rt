// Codes of one cell.
ghost use Rattle.std.specs.Prelude.{◌≡◌, [], ◌∷◌, IfOk};
ghost use Rattle.page_code.specs.Ops.{takes};
ghost use Rattle.page_code.specs.Shapes.{cell, up};
ghost use Rattle.page_code.specs.declared.instr.Instr.TheVariants as instr;

use page_code::{CallOut, Code, Instr, Leave, Op, Shape};
use pg_text::Place;
use std::alloc::{AllocError, Global};

/// The code of an operation, whose values stand above the ground.
pub fn operation(alloc: Global, ground: &Shape, place: &Place, op: Op) -> Result<Code, AllocError>
    ensures { IfOk result (λ code. code ≡ cell (up (takes op) ground.now) place.now (instr.Op op) ∷ []) }
{
    let Ok(count) = usize::try_from(op.takes()) else {
        return Err(AllocError);
    };
    one_cell(alloc, &ground.up(count)?, place, Instr::Op(op))
}

/// The code of a call that hands nothing down, where so much stands open before it.
pub fn call(alloc: Global, before: &Shape, place: &Place, what: CallOut) -> Result<Code, AllocError>
    ensures { IfOk result (λ code. code ≡ cell before.now place.now (instr.CallOut what) ∷ []) }
{
    one_cell(alloc, before, place, Instr::CallOut(what))
}

/// The code of an end, where so much stands open before it.
pub fn leave(alloc: Global, before: &Shape, place: &Place, how: Leave) -> Result<Code, AllocError>
    ensures { IfOk result (λ code. code ≡ cell before.now place.now (instr.Leave how) ∷ []) }
{
    one_cell(alloc, before, place, Instr::Leave(how))
}

/// The code of one instruction.
pub(crate) fn one_cell(
    alloc: Global,
    before: &Shape,
    place: &Place,
    instr: Instr,
) -> Result<Code, AllocError>
    ensures { IfOk result (λ code. code ≡ cell before.now place.now instr ∷ []) }
{
    let mut code = Code::new(alloc);
    code.put(before, place, instr)?;
    Ok(code)
}
