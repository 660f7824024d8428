// Codes of one operation.
ghost use Rattle.std.specs.Prelude.{◌≡◌, IfOk};
ghost use Rattle.code_forms.specs.Codes.{form_code};
ghost use Rattle.code_lowering.specs.Expressions.{coerces, constant, visits};
ghost use Rattle.pg_value.specs.Value.{datum_of};

use code_forms::operation;
use page_code::{Code, Coercion, Op, Shape};
use pg_text::Place;
use pg_value::Value;
use std::alloc::{AllocError, Global};

/// The code that counts so many visits.
pub fn visits(alloc: Global, ground: &Shape, place: &Place, count: u32) -> Result<Code, AllocError>
    ensures { IfOk result (λ code. code ≡ form_code ground.now (visits count place.now)) }
{
    operation(alloc, ground, place, Op::Visit(count))
}

/// The code of a constant.
#[tactic(auto, using(crate::proofs::ValueLemmas::inverses))]
pub fn constant(
    alloc: Global,
    ground: &Shape,
    place: &Place,
    value: Value,
) -> Result<Code, AllocError>
    ensures { IfOk result (λ code. code ≡ form_code ground.now (constant place.now (datum_of value))) }
{
    operation(alloc, ground, place, Op::Const(value))
}

/// The code that coerces the value on top.
pub fn coercion(
    alloc: Global,
    ground: &Shape,
    place: &Place,
    coercion: Coercion,
) -> Result<Code, AllocError>
    ensures { IfOk result (λ code. code ≡ form_code ground.now (coerces coercion place.now)) }
{
    operation(alloc, ground, place, Op::Coerce(coercion))
}
