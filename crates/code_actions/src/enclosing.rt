// Actions around a body.
ghost use Rattle.std.specs.Prelude.{◌≡◌, IfOk};
ghost use Rattle.code_actions.specs.Enclosing.{enclosing_code, enclosing_evaluations};
ghost use Rattle.code_actions.specs.Enclosing.{enclosing_ground};

use crate::bodies::{set, set_entry};
use crate::choices::if_code;
use crate::evaluations::Evaluations;
use crate::loops::{each, loop_kind};
use crate::outputs::{out, out_ground};
use page_acts::Enclosing;
use page_code::{Code, Over, Shape};
use pg_text::{Listed, Place, Text};
use std::alloc::{AllocError, Global};

/// What becomes of the attributes of an action around a body.
pub fn enclosing_evaluations(action: &Enclosing) -> Evaluations<'static>
    ensures { result ≡ enclosing_evaluations action.now }
{
    match action {
        Enclosing::Out => Evaluations::Out,
        Enclosing::Set(_) => Evaluations::Set,
        Enclosing::SetEntry(_) => Evaluations::Set,
        Enclosing::If(_) => Evaluations::Test,
        Enclosing::ForEach { .. } => Evaluations::Each,
        Enclosing::ForTokens { .. } => Evaluations::Tokens,
    }
}

/// What stands open in the body of an action whose attributes with a value have these names.
pub fn enclosing_ground(
    action: &Enclosing,
    ground: &Shape,
    names: &Listed<Text>,
) -> Result<Shape, AllocError>
    ensures { IfOk result (λ made. made ≡ enclosing_ground action.now names.now ground.now) }
{
    match action {
        Enclosing::Out => out_ground(ground, names),
        Enclosing::Set(_) => ground.keeping(),
        Enclosing::SetEntry(_) => ground.up(1)?.keeping(),
        Enclosing::If(_) => ground.copy(),
        Enclosing::ForEach { .. } => ground.looping(),
        Enclosing::ForTokens { .. } => ground.looping(),
    }
}

/// The code of an action around a body, behind the values of its attributes, which have these
/// names, from the code of its body.
pub fn enclosing_code(
    alloc: Global,
    ground: &Shape,
    place: &Place,
    action: &Enclosing,
    names: Listed<Text>,
    body: Code,
) -> Result<Code, AllocError>
    ensures { IfOk result (λ code. code ≡ enclosing_code action.now ground.now place.now names body) }
{
    match action {
        Enclosing::Out => out(alloc, ground, place, &names, body),
        Enclosing::Set(variable) => set(alloc, ground, place, variable, &names, body),
        Enclosing::SetEntry(target) => set_entry(alloc, ground, place, target, &names, body),
        Enclosing::If(variable) => if_code(alloc, ground, place, variable, &names, body),
        Enclosing::ForEach { variable, status } => {
            let kind = loop_kind(Over::Items, names, variable, status)?;
            each(alloc, ground, place, kind, body)
        }
        Enclosing::ForTokens { variable, status } => {
            let kind = loop_kind(Over::Tokens, names, variable, status)?;
            each(alloc, ground, place, kind, body)
        }
    }
}
