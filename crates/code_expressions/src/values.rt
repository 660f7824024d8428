// What becomes of the value of an attribute, and texts that are kept.
ghost use Rattle.std.specs.Prelude.{◌≡◌, ◌++◌, IfOk};
ghost use Rattle.code_expressions.specs.Values.{coercing_code, coercion_of, kept_code};

use crate::single::coercion;
use code_forms::{kept as kept_part, operation};
use page_code::{Code, Coercion, Op, Shape};
use pg_text::Place;
use pg_value::Function;
use std::alloc::{AllocError, Global};

/// What becomes of an attribute.
#[derive(Clone, Copy, Debug, PartialEq, Eq)]
pub enum Evaluation {
    /// Its value stays as it is.
    AsItIs,
    To(Coercion),
    /// It is a fragment, and has no value.
    Unevaluated,
}

/// The code of a value, and behind it of what coerces it.
pub fn coerced(
    alloc: Global,
    ground: &Shape,
    place: &Place,
    evaluation: Evaluation,
    value: Code,
) -> Result<Code, AllocError>
    ensures { IfOk result (λ code. code ≡ value ++ coercing_code ground.now place.now (coercion_of evaluation)) }
{
    let mut code = value;
    if let Evaluation::To(to) = evaluation {
        code.join(coercion(alloc, ground, place, to)?)?;
    }
    Ok(code)
}

/// The code of the text that a part writes, trimmed where that is asked. The part's own code has
/// one kept body more below it.
pub fn kept(
    alloc: Global,
    ground: &Shape,
    place: &Place,
    trim: bool,
    part: Code,
) -> Result<Code, AllocError>
    ensures { IfOk result (λ code. code ≡ kept_code ground.now place.now trim part) }
{
    let before = ground.up(0)?;
    let mut code = kept_part(alloc, &before, ground, place, part)?;
    if trim {
        code.join(operation(alloc, ground, place, Op::Call(Function::Trim))?)?;
    }
    Ok(code)
}
