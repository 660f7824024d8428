// What is written.
ghost use Rattle.std.specs.Prelude.{◌≡◌, ◌++◌, true, IfOk, codes};
ghost use Rattle.code_actions.specs.Enclosing.{out_by};
ghost use Rattle.code_actions.specs.Outputs.{body_code, chosen_put, default_code, out_code};
ghost use Rattle.code_actions.specs.Outputs.{out_ground, value_code};
ghost use Rattle.code_expressions.specs.Values.{kept_code};
ghost use Rattle.page_code.specs.Shapes.{up};
ghost use Rattle.page_code.specs.declared.instr.Instr.TheVariants as instr;
ghost use Rattle.page_code.specs.declared.op.Op.TheVariants as op;
ghost use Rattle.page_code.specs.declared.operands.Coercion.TheVariants as coercion;
ghost use Rattle.code_forms.specs.Codes.{arranged_code, either_code, form_code};
ghost use Rattle.code_forms.specs.Forms.{both, does};
ghost use Rattle.code_lowering.specs.Expressions.{coerces, value_form};
ghost use Rattle.code_lowering.specs.Lowering.{has, out_wanted};
ghost use Rattle.el_reader.specs.El.{tree_of};

use crate::names::has;
use crate::parting::{chosen_above, where_null_above};
use code_expressions::{coercion, kept, value};
use code_forms::{arranged, joined, operation, swapped};
use el_reader::El;
use page_code::{Code, Coercion, Op, Shape};
use pg_text::{Listed, Place, Text};
use std::alloc::{AllocError, Global};

/// The code of template text.
pub fn template(
    alloc: Global,
    ground: &Shape,
    place: &Place,
    text: &Text,
) -> Result<Code, AllocError>
    ensures { IfOk result (λ code. code ≡ form_code ground.now (does (op.Write text.now) place.now)) }
{
    operation(alloc, ground, place, Op::Write(text.copy()?))
}

/// The code of an expression in template text, behind its first visits.
pub fn shown(alloc: Global, ground: &Shape, place: &Place, el: &El) -> Result<Code, AllocError>
    ensures { IfOk result (λ code. code ≡ form_code ground.now (both (value_form place.now (tree_of el.now))
        (both (coerces coercion.Text place.now) (does op.Put place.now)))) }
{
    let shown = value(alloc, ground, place, el)?;
    joined(shown, put_as_text(alloc, ground, place)?)
}

/// The code that writes the value on top as text.
pub(crate) fn put_as_text(alloc: Global, ground: &Shape, place: &Place) -> Result<Code, AllocError>
    ensures { IfOk result (λ code. code ≡ form_code ground.now (both (coerces coercion.Text place.now)
        (does op.Put place.now))) }
{
    let text = coercion(alloc, ground, place, Coercion::Text)?;
    joined(text, operation(alloc, ground, place, Op::Put)?)
}

/// What stands open in the body of `c:out`, whose attributes with a value have these names.
pub(crate) fn out_ground(ground: &Shape, names: &Listed<Text>) -> Result<Shape, AllocError>
    ensures { IfOk result (λ made. made ≡ out_ground (has (codes "escapeXml") names.now) ground.now) }
{
    if has(names.as_slice(), "escapeXml") {
        ground.up(1)?.keeping()
    } else {
        ground.keeping()
    }
}

/// The code of `c:out`, behind the values of its attributes.
pub(crate) fn out(
    alloc: Global,
    ground: &Shape,
    place: &Place,
    names: &Listed<Text>,
    body: Code,
) -> Result<Code, AllocError>
    ensures { IfOk result (λ code. code ≡ out_by ground.now place.now names.now body) }
{
    let default = has(names.as_slice(), "default");
    let escape = has(names.as_slice(), "escapeXml");
    let behind = written(alloc, ground, place, default, escape, body)?;
    joined(
        wanted(alloc, ground, place, default, escape, names)?,
        behind,
    )
}

// The code that brings those values above the others that the action takes.
fn wanted(
    alloc: Global,
    ground: &Shape,
    place: &Place,
    default: bool,
    escape: bool,
    names: &Listed<Text>,
) -> Result<Code, AllocError>
    ensures { IfOk result (λ code. code ≡ arranged_code ground.now place.now (out_wanted default escape)
        names.now 0) }
{
    match (default, escape) {
        (true, true) => arranged(
            alloc,
            ground,
            place,
            &["default", "escapeXml", "value"],
            names,
        ),
        (true, false) => arranged(alloc, ground, place, &["default", "value"], names),
        (false, true) => arranged(alloc, ground, place, &["escapeXml", "value"], names),
        (false, false) => arranged(alloc, ground, place, &["value"], names),
    }
}

// The code that writes the value, or where that is null the default, or else the body.
fn written(
    alloc: Global,
    ground: &Shape,
    place: &Place,
    default: bool,
    escape: bool,
    body: Code,
) -> Result<Code, AllocError>
    ensures { IfOk result (λ code. code ≡ out_code ground.now place.now default escape body) }
{
    match (default, escape) {
        (true, true) => or_default(alloc, ground, 3, place, true),
        (true, false) => or_default(alloc, ground, 2, place, false),
        (false, true) => or_body(alloc, ground, 2, place, true, body),
        (false, false) => or_body(alloc, ground, 1, place, false, body),
    }
}

// The code that writes the value, or where that is null the default; of so many values.
fn or_default(
    alloc: Global,
    ground: &Shape,
    taken: usize,
    place: &Place,
    escape: bool,
) -> Result<Code, AllocError>
    ensures { IfOk result (λ code. code
        ≡ either_code (up taken ground.now) (up 0 ground.now) place.now instr.JumpNull
        (value_code (up 1 ground.now) place.now escape ++ form_code ground.now (does op.Pop place.now))
        (default_code ground.now place.now escape)) }
{
    let absent = default_text(alloc, ground, place, escape)?;
    let present = value_alone(alloc, ground, place, escape)?;
    where_null_above(alloc, ground, taken, place, absent, present)
}

// The code that writes the value, and takes the default away, which stands below it.
fn value_alone(
    alloc: Global,
    ground: &Shape,
    place: &Place,
    escape: bool,
) -> Result<Code, AllocError>
    ensures { IfOk result (λ code. code ≡ value_code (up 1 ground.now) place.now escape
        ++ form_code ground.now (does op.Pop place.now)) }
{
    let value = value_text(alloc, &ground.up(1)?, place, escape)?;
    joined(value, operation(alloc, ground, place, Op::Pop)?)
}

// The code that writes the value, or where that is null the body; of so many values.
fn or_body(
    alloc: Global,
    ground: &Shape,
    taken: usize,
    place: &Place,
    escape: bool,
    body: Code,
) -> Result<Code, AllocError>
    ensures { IfOk result (λ code. code ≡ either_code (up taken ground.now) (up 0 ground.now) place.now
        instr.JumpNull (value_code ground.now place.now escape) (body_code ground.now place.now escape body)) }
{
    let absent = body_text(alloc, ground, place, escape, body)?;
    let present = value_text(alloc, ground, place, escape)?;
    where_null_above(alloc, ground, taken, place, absent, present)
}

// The code that writes the default.
fn default_text(
    alloc: Global,
    ground: &Shape,
    place: &Place,
    escape: bool,
) -> Result<Code, AllocError>
    ensures { IfOk result (λ code. code ≡ default_code ground.now place.now escape) }
{
    if escape {
        chosen_put(alloc, ground, place)
    } else {
        operation(alloc, ground, place, Op::PutEscaped)
    }
}

// The code that writes the value. `escape` says whether the attribute of that name is given: then
// its truth value stands below the value; else the value is written escaped.
fn value_text(
    alloc: Global,
    ground: &Shape,
    place: &Place,
    escape: bool,
) -> Result<Code, AllocError>
    ensures { IfOk result (λ code. code ≡ value_code ground.now place.now escape) }
{
    if !escape {
        return operation(alloc, ground, place, Op::PutEscaped);
    }
    let swap = swapped(alloc, ground, place)?;
    joined(swap, chosen_put(alloc, ground, place)?)
}

// The code that writes the trimmed text of the body.
fn body_text(
    alloc: Global,
    ground: &Shape,
    place: &Place,
    escape: bool,
    body: Code,
) -> Result<Code, AllocError>
    ensures { IfOk result (λ code. code ≡ body_code ground.now place.now escape body) }
{
    if escape {
        kept_and_put(alloc, ground, &ground.up(1)?, place, true, body)
    } else {
        kept_and_put(alloc, ground, ground, place, false, body)
    }
}

// The code that keeps the body above `below`, and writes its trimmed text. `escape` is as in
// `value_text`.
fn kept_and_put(
    alloc: Global,
    ground: &Shape,
    below: &Shape,
    place: &Place,
    escape: bool,
    body: Code,
) -> Result<Code, AllocError>
    ensures { IfOk result (λ code. code ≡ kept_code below.now place.now true body
        ++ value_code ground.now place.now escape) }
{
    let text = kept(alloc, below, place, true, body)?;
    joined(text, value_text(alloc, ground, place, escape)?)
}

// The code that writes a text, escaped where the truth value on top says so.
fn chosen_put(alloc: Global, ground: &Shape, place: &Place) -> Result<Code, AllocError>
    ensures { IfOk result (λ code. code ≡ chosen_put ground.now place.now) }
{
    let escaped = operation(alloc, ground, place, Op::PutEscaped)?;
    let plain = operation(alloc, ground, place, Op::Put)?;
    chosen_above(alloc, ground, 2, place, escaped, plain)
}
