// Parts in operators, choices, lists, maps and calls.
ghost use Rattle.std.specs.Prelude.{◌≡◌, ◌++◌, false, true, IfOk};
ghost use Rattle.el_reader.specs.Tree.{literal};
ghost use Rattle.page_code.specs.Shapes.{up};
ghost use Rattle.page_code.specs.declared.instr.Instr.TheVariants as instr;
ghost use Rattle.page_code.specs.declared.op.Op.TheVariants as op;
ghost use Rattle.page_code.specs.declared.operands.Coercion.TheVariants as coercion;
ghost use Rattle.code_forms.specs.Codes.{either_code, form_code};
ghost use Rattle.code_forms.specs.Forms.{does};
ghost use Rattle.code_lowering.specs.Expressions.{coerces, constant, value_form};
ghost use Rattle.pg_value.specs.Datum.{truth};
ghost use Rattle.pg_value.specs.Value.{datum_of};

use crate::single::{coercion, constant};
use code_forms::{chosen, operation};
use page_code::{Code, Coercion, Op, Shape};
use pg_text::Place;
use pg_value::{Value, is_too_large};
use std::alloc::{AllocError, Global};

/// The code of a literal. A list of one that is too large raises its fault.
pub(crate) fn literal(
    alloc: Global,
    ground: &Shape,
    place: &Place,
    value: &Value,
) -> Result<Code, AllocError>
    ensures { IfOk result (λ code. code ≡ form_code ground.now
        (value_form place.now (literal (datum_of value.now)))) }
{
    let mut code = constant(alloc, ground, place, value.copy()?)?;
    if is_too_large(value) {
        code.join(operation(alloc, ground, place, Op::MakeList(1))?)?;
    }
    Ok(code)
}

/// The code of values, of which an operation makes one.
pub(crate) fn made_of(
    alloc: Global,
    ground: &Shape,
    place: &Place,
    values: Code,
    op: Op,
) -> Result<Code, AllocError>
    ensures { IfOk result (λ code. code ≡ values ++ form_code ground.now (does op place.now)) }
{
    let mut code = values;
    code.join(operation(alloc, ground, place, op)?)?;
    Ok(code)
}

/// The code of a choice: a condition, and of two parts the one that it chooses.
pub(crate) fn choice(
    alloc: Global,
    ground: &Shape,
    place: &Place,
    condition: Code,
    one: Code,
    other: Code,
) -> Result<Code, AllocError>
    ensures { IfOk result (λ code. code
        ≡ (condition ++ form_code ground.now (coerces coercion.Truth place.now)) ++ either_code
        (up 1 ground.now) (up 1 ground.now) place.now (instr.JumpIf false) one other) }
{
    let mut code = condition;
    code.join(coercion(alloc, ground, place, Coercion::Truth)?)?;
    let test = ground.up(1)?;
    code.join(chosen(alloc, &test, &test, place, one, other)?)?;
    Ok(code)
}

/// The code of `&&` behind its left part: the right part where the left is true, else false.
pub(crate) fn and_then(
    alloc: Global,
    ground: &Shape,
    place: &Place,
    right: Code,
) -> Result<Code, AllocError>
    ensures { IfOk result (λ code. code ≡ form_code ground.now (coerces coercion.Truth place.now)
        ++ either_code (up 1 ground.now) (up 1 ground.now) place.now (instr.JumpIf false)
        (right ++ form_code ground.now (coerces coercion.Truth place.now))
        (form_code ground.now (constant place.now (truth false)))) }
{
    let mut right = right;
    right.join(coercion(alloc, ground, place, Coercion::Truth)?)?;
    let no = constant(alloc, ground, place, Value::Bool(false))?;
    decided(alloc, ground, place, right, no)
}

/// The code of `||` behind its left part: true where the left is true, else the right part.
pub(crate) fn or_else(
    alloc: Global,
    ground: &Shape,
    place: &Place,
    right: Code,
) -> Result<Code, AllocError>
    ensures { IfOk result (λ code. code ≡ form_code ground.now (coerces coercion.Truth place.now)
        ++ either_code (up 1 ground.now) (up 1 ground.now) place.now (instr.JumpIf false)
        (form_code ground.now (constant place.now (truth true)))
        (right ++ form_code ground.now (coerces coercion.Truth place.now))) }
{
    let mut right = right;
    right.join(coercion(alloc, ground, place, Coercion::Truth)?)?;
    let yes = constant(alloc, ground, place, Value::Bool(true))?;
    decided(alloc, ground, place, yes, right)
}

// The code of one of two parts, by the truth value of what stands on top.
fn decided(
    alloc: Global,
    ground: &Shape,
    place: &Place,
    one: Code,
    other: Code,
) -> Result<Code, AllocError>
    ensures { IfOk result (λ code. code ≡ form_code ground.now (coerces coercion.Truth place.now)
        ++ either_code (up 1 ground.now) (up 1 ground.now) place.now (instr.JumpIf false) one other) }
{
    let mut code = coercion(alloc, ground, place, Coercion::Truth)?;
    let test = ground.up(1)?;
    code.join(chosen(alloc, &test, &test, place, one, other)?)?;
    Ok(code)
}
