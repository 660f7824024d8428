// The parts of an attribute's value.
ghost use Rattle.std.specs.Prelude.{◌≡◌, ◌++◌, [], ◌∷◌, length, map, IfOk};
ghost use Rattle.page_code.specs.declared.op.Op.TheVariants as op;
ghost use Rattle.code_forms.specs.Codes.{form_code};
ghost use Rattle.code_forms.specs.Forms.{does};
ghost use Rattle.code_lowering.specs.Values.{part_form, parts_form, texts_form};
ghost use Rattle.unit_meaning.specs.Named.{part_of};
ghost use Rattle.unit_nodes.specs.Views.{part_of as part_view};

use crate::single::{coercion, constant};
use crate::tree::expression;
use code_forms::operation;
use page_code::{Code, Coercion, Op, Shape};
use pg_text::Place;
use pg_value::Value;
use std::alloc::{AllocError, Global};
use unit_nodes::UnitPart;

/// The code of the value of parts: of one expression alone its value, else the text of all joined.
pub fn parts(
    alloc: Global,
    ground: &Shape,
    place: &Place,
    parts: &[UnitPart],
) -> Result<Code, AllocError>
    ensures { IfOk result (λ code. code ≡ form_code ground.now
        (parts_form place.now (map part_of (map part_view parts.now)))) }
{
    if parts.len() == 1 {
        alone(alloc, ground, place, &parts[0])
    } else {
        joined(alloc, ground, place, parts)
    }
}

// The code of the value of one part.
fn alone(alloc: Global, ground: &Shape, place: &Place, part: &UnitPart) -> Result<Code, AllocError>
    ensures { IfOk result (λ code. code ≡ form_code ground.now
        (parts_form place.now (part_of (part_view part.now) ∷ []))) }
{
    match part {
        UnitPart::Expr(el) => expression(alloc, ground, place, el),
        UnitPart::Text(text) => {
            let mut code = constant(alloc, ground, place, Value::Text(text.copy()?))?;
            code.join(operation(alloc, ground, place, Op::Concat(1))?)?;
            Ok(code)
        }
    }
}

// The code of the texts of parts joined.
fn joined(
    alloc: Global,
    ground: &Shape,
    place: &Place,
    parts: &[UnitPart],
) -> Result<Code, AllocError>
    ensures { IfOk result (λ code. code ≡ form_code ground.now
        (texts_form place.now (map part_of (map part_view parts.now)))
        ++ form_code ground.now (does (op.Concat (length parts.now)) place.now)) }
{
    let mut code = texts(alloc, ground, place, parts)?;
    code.join(operation(alloc, ground, place, Op::Concat(parts.len()))?)?;
    Ok(code)
}

// The code of each part as a text.
fn texts(
    alloc: Global,
    ground: &Shape,
    place: &Place,
    parts: &[UnitPart],
) -> Result<Code, AllocError>
    ensures { IfOk result (λ code. code ≡ form_code ground.now
        (texts_form place.now (map part_of (map part_view parts.now)))) }
{
    let mut code = Code::new(alloc);
    let mut above = ground.copy()?;
    for part in parts {
        code.join(text(alloc, &above, place, part)?)?;
        above = above.up(1)?;
    }
    Ok(code)
}

// The code of a part as a text.
fn text(alloc: Global, ground: &Shape, place: &Place, part: &UnitPart) -> Result<Code, AllocError>
    ensures { IfOk result (λ code. code ≡ form_code ground.now
        (part_form place.now (part_of (part_view part.now)))) }
{
    match part {
        UnitPart::Text(text) => constant(alloc, ground, place, Value::Text(text.copy()?)),
        UnitPart::Expr(el) => {
            let mut code = expression(alloc, ground, place, el)?;
            code.join(coercion(alloc, ground, place, Coercion::Text)?)?;
            Ok(code)
        }
    }
}
