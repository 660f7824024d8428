// What stands around a part.
ghost use Rattle.std.specs.Prelude.{◌≡◌, [], ◌∷◌, ◌++◌, length, IfOk};
ghost use Rattle.page_code.specs.Shapes.{cell, keeping, trying};
ghost use Rattle.page_code.specs.declared.instr.Instr.TheVariants as instr;
ghost use Rattle.page_code.specs.declared.op.Op.TheVariants as op;
ghost use Rattle.pg_value.specs.declared.value.Value.TheVariants as value;
ghost use Rattle.code_forms.specs.Codes.{catch_code, rounds_code};

use page_code::{Bean, Code, Instr, LoopKind, Op, ScopedName, Shape, Shared};
use pg_text::Place;
use pg_value::Value;
use std::alloc::{AllocError, Global};

/// The code of the text that a part writes. The part's own code has one kept body more below it.
pub fn kept(
    alloc: Global,
    before: &Shape,
    ground: &Shape,
    place: &Place,
    part: Code,
) -> Result<Code, AllocError>
    ensures { IfOk result (λ code. code ≡ cell before.now place.now instr.StartBody
        ∷ (part ++ cell (keeping ground.now) place.now instr.TakeBody ∷ [])) }
{
    let mut code = Code::new(alloc);
    code.put(before, place, Instr::StartBody)?;
    code.join(part)?;
    code.put(&ground.keeping()?, place, Instr::TakeBody)?;
    Ok(code)
}

/// The code of a bean that is made where its variable isn't set, and of a part that runs then.
pub fn ensured(
    alloc: Global,
    ground: &Shape,
    place: &Place,
    variable: ScopedName,
    bean: Bean,
    part: Code,
) -> Result<Code, AllocError>
    ensures { IfOk result (λ code. code ≡ cell ground.now place.now
        (instr.Ensure variable bean (length part)) ∷ part) }
{
    let size = part.len();
    let mut code = Code::new(alloc);
    let instr = Instr::Ensure {
        variable,
        bean: Shared::new(alloc, bean)?,
        size,
    };
    code.put(ground, place, instr)?;
    code.join(part)?;
    Ok(code)
}

/// The code of a loop over a part, whose own code has one loop more below it. So much stands open
/// before the loop takes its values.
pub fn looped(
    alloc: Global,
    before: &Shape,
    ground: &Shape,
    place: &Place,
    kind: LoopKind,
    part: Code,
) -> Result<Code, AllocError>
    ensures { IfOk result (λ code. code ≡ cell before.now place.now (instr.LoopStart kind)
        ∷ rounds_code ground.now place.now part) }
{
    let size = part.len();
    let within = ground.looping()?;
    let mut code = Code::new(alloc);
    let start = Instr::LoopStart(Shared::new(alloc, kind)?);
    code.put(before, place, start)?;
    code.put(&within, place, Instr::Jump(size))?;
    code.join(part)?;
    code.put(&within, place, Instr::LoopNext(size))?;
    Ok(code)
}

/// The code of a part that is tried, whose own code has one catch more below it, and of what takes
/// the record of its fault, or null where it went well.
pub fn caught(
    alloc: Global,
    ground: &Shape,
    place: &Place,
    tried: Code,
    handler: Code,
) -> Result<Code, AllocError>
    ensures { IfOk result (λ code. code ≡ catch_code ground.now place.now tried handler) }
{
    let front = ended_try(ground, place, tried)?;
    let mut code = Code::new(alloc);
    code.put(ground, place, Instr::CatchStart(front.len()))?;
    code.join(front)?;
    code.join(handler)?;
    Ok(code)
}

// What is tried, with the end of its catch and a null behind it.
fn ended_try(ground: &Shape, place: &Place, mut tried: Code) -> Result<Code, AllocError>
    ensures { IfOk result (λ front. front ≡ tried ++ cell (trying ground.now) place.now instr.CatchEnd
        ∷ cell ground.now place.now (instr.Op (op.Const value.Null)) ∷ []) }
{
    tried.put(&ground.trying()?, place, Instr::CatchEnd)?;
    tried.put(ground, place, Instr::Op(Op::Const(Value::Null)))?;
    Ok(tried)
}
