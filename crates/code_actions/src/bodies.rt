// Values that an attribute or a body gives.
ghost use Rattle.std.specs.Prelude.{◌≡◌, true, IfOk, codes};
ghost use Rattle.code_actions.specs.Bodies.{value_or_body_code, with_value_or_body_code};
ghost use Rattle.code_actions.specs.Enclosing.{entry_by, set_by};
ghost use Rattle.code_expressions.specs.Values.{kept_code};
ghost use Rattle.page_acts.specs.Views.{variable_of};
ghost use Rattle.page_code.specs.Shapes.{keeping, up};
ghost use Rattle.page_code.specs.declared.op.Op.TheVariants as op;
ghost use Rattle.page_code.specs.declared.operands.PropertyMode.TheVariants as mode;
ghost use Rattle.code_forms.specs.Codes.{form_code};
ghost use Rattle.code_forms.specs.Forms.{does};
ghost use Rattle.code_lowering.specs.Lowering.{has};

use crate::arranging::arranged_before;
use crate::beans::setting;
use crate::names::has;
use crate::variables::sets_or_removes;
use code_expressions::kept;
use code_forms::{arranged, joined, operation};
use page_acts::Variable;
use page_code::{Code, PropertyMode, Shape};
use pg_text::{Listed, Place, Text};
use std::alloc::{AllocError, Global};

/// What stands open in the body of a param.
pub fn param_ground(ground: &Shape) -> Result<Shape, AllocError>
    ensures { IfOk result (λ made. made ≡ keeping (up 1 ground.now)) }
{
    ground.up(1)?.keeping()
}

/// The code of `c:set` of a variable, behind the values of its attributes.
pub(crate) fn set(
    alloc: Global,
    ground: &Shape,
    place: &Place,
    variable: &Variable,
    names: &Listed<Text>,
    body: Code,
) -> Result<Code, AllocError>
    ensures { IfOk result (λ code. code ≡ set_by ground.now place.now (variable_of variable.now) names.now body) }
{
    let value = value_or_body(alloc, ground, place, names, body)?;
    joined(value, sets_or_removes(alloc, ground, place, variable)?)
}

/// The code of `c:set` of an entry of the record that a variable holds, behind the values of its
/// attributes.
pub(crate) fn set_entry(
    alloc: Global,
    ground: &Shape,
    place: &Place,
    target: &Text,
    names: &Listed<Text>,
    body: Code,
) -> Result<Code, AllocError>
    ensures { IfOk result (λ code. code ≡ entry_by ground.now place.now target.now names.now body) }
{
    let value = with_value_or_body(alloc, ground, place, "property", names, body)?;
    joined(value, sets_entry(alloc, ground, place, target)?)
}

// The code that sets an entry of the record in a variable. It takes two values: the entry's name,
// and on top what shall stand under it, where null takes the entry out.
fn sets_entry(
    alloc: Global,
    ground: &Shape,
    place: &Place,
    target: &Text,
) -> Result<Code, AllocError>
    ensures { IfOk result (λ code. code ≡ form_code ground.now
        (does (op.SetProperty target.now mode.Entry) place.now)) }
{
    let op = setting(alloc, target, PropertyMode::Entry)?;
    operation(alloc, ground, place, op)
}

/// The code of the name and the value of a param, behind the values of its attributes.
pub fn param(
    alloc: Global,
    ground: &Shape,
    place: &Place,
    names: &Listed<Text>,
    body: Code,
) -> Result<Code, AllocError>
    ensures { IfOk result (λ code. code ≡ with_value_or_body_code ground.now place.now (codes "name")
        (has (codes "value") names.now) names.now body) }
{
    with_value_or_body(alloc, ground, place, "name", names, body)
}

// The code of the value that was given, or else of the trimmed text of the body.
fn value_or_body(
    alloc: Global,
    ground: &Shape,
    place: &Place,
    names: &Listed<Text>,
    body: Code,
) -> Result<Code, AllocError>
    ensures { IfOk result (λ code. code ≡ value_or_body_code ground.now place.now
        (has (codes "value") names.now) names.now body) }
{
    if has(names.as_slice(), "value") {
        return arranged(alloc, ground, place, &["value"], names);
    }
    let text = kept(alloc, ground, place, true, body)?;
    arranged_before(alloc, ground, place, &[], names, text)
}

// The same above the value of another attribute.
fn with_value_or_body(
    alloc: Global,
    ground: &Shape,
    place: &Place,
    first: &str,
    names: &Listed<Text>,
    body: Code,
) -> Result<Code, AllocError>
    ensures { IfOk result (λ code. code ≡ with_value_or_body_code ground.now place.now first.now
        (has (codes "value") names.now) names.now body) }
{
    if has(names.as_slice(), "value") {
        return arranged(alloc, ground, place, &[first, "value"], names);
    }
    let text = kept_above(alloc, ground, place, body)?;
    arranged_before(alloc, ground, place, &[first], names, text)
}

// The code of the trimmed text of a body, above the value of another attribute: the name of a
// param, or the property of `c:set`.
fn kept_above(alloc: Global, ground: &Shape, place: &Place, body: Code) -> Result<Code, AllocError>
    ensures { IfOk result (λ code. code ≡ kept_code (up 1 ground.now) place.now true body) }
{
    kept(alloc, &ground.up(1)?, place, true, body)
}
