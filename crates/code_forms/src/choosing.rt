// One of two parts.
ghost use Rattle.std.specs.Prelude.{◌≡◌, false, [], ◌∷◌, ◌++◌, length, IfOk};
ghost use Rattle.page_code.specs.Shapes.{cell};
ghost use Rattle.page_code.specs.declared.instr.Instr.TheVariants as instr;
ghost use Rattle.code_forms.specs.Codes.{either_code};

use page_code::{Code, Instr, Shape};
use pg_text::Place;
use std::alloc::{AllocError, Global};

/// The code of the first part where the truth value on top is true, and of the second where it is
/// false. So much stands open before this value is taken, and behind both parts.
pub fn chosen(
    alloc: Global,
    before: &Shape,
    after: &Shape,
    place: &Place,
    first: Code,
    second: Code,
) -> Result<Code, AllocError>
    ensures { IfOk result (λ code. code ≡ either_code before.now after.now place.now (instr.JumpIf false)
        first second) }
{
    let front = passing(after, place, first, &second)?;
    let test = Instr::JumpIf(false, front.len());
    tested(alloc, before, place, test, front, second)
}

/// The code of one part where null is on top, which is taken, and of another where something else
/// is.
pub fn where_null(
    alloc: Global,
    before: &Shape,
    after: &Shape,
    place: &Place,
    absent: Code,
    present: Code,
) -> Result<Code, AllocError>
    ensures { IfOk result (λ code. code ≡ either_code before.now after.now place.now instr.JumpNull present absent) }
{
    let front = passing(after, place, present, &absent)?;
    let test = Instr::JumpNull(front.len());
    tested(alloc, before, place, test, front, absent)
}

// The first part with the jump over the second behind it.
fn passing(after: &Shape, place: &Place, mut first: Code, second: &Code) -> Result<Code, AllocError>
    ensures { IfOk result (λ front. front ≡ first ++ cell after.now place.now
        (instr.Jump (length second.now)) ∷ []) }
{
    first.put(after, place, Instr::Jump(second.len()))?;
    Ok(first)
}

// A test, and the two parts behind it.
fn tested(
    alloc: Global,
    before: &Shape,
    place: &Place,
    test: Instr,
    front: Code,
    second: Code,
) -> Result<Code, AllocError>
    ensures { IfOk result (λ code. code ≡ cell before.now place.now test ∷ (front ++ second)) }
{
    let mut code = Code::new(alloc);
    code.put(before, place, test)?;
    code.join(front)?;
    code.join(second)?;
    Ok(code)
}
