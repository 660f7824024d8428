// The values of attributes.
ghost use Rattle.std.specs.Prelude.{◌≡◌, ◌++◌, IfOk};
ghost use Rattle.code_actions.specs.Evaluations.{coercions};
ghost use Rattle.code_expressions.specs.Values.{kept_code};
ghost use Rattle.page_acts.specs.Views.{attributes_of};
ghost use Rattle.code_forms.specs.Codes.{form_code};
ghost use Rattle.code_lowering.specs.Expressions.{visits};
ghost use Rattle.code_lowering.specs.Lowering.{attributes_form};
ghost use Rattle.unit_meaning.specs.Shape.{page_of};
ghost use Rattle.unit_nodes.specs.Views.{page_view};
ghost use Rattle.code_nodes.specs.Values.{attribute_place, behind_value, coerced_code, is_fragment};
ghost use Rattle.code_nodes.specs.Values.{value_form};

use crate::names::name_of;
use crate::position::Position;
use crate::tree::nodes;
use code_actions::Evaluations;
use code_expressions::{Evaluation, coerced, kept, parts as parts_code, visits};
use code_forms::joined;
use page_acts::ActAttribute;
use page_code::{Code, Shape};
use pg_text::Place;
use std::alloc::{AllocError, Global};
use unit_nodes::Page;

/// The code of the values of the attributes that are evaluated, in order.
#[cycle(nodes)]
pub(crate) fn values(
    alloc: Global,
    page: &Page,
    ground: &Shape,
    evaluations: &Evaluations,
    list: &[ActAttribute],
) -> Result<Code, AllocError>
    ensures { IfOk result (λ code. code ≡ form_code ground.now
        (attributes_form (page_of (page_view page.now)) (attributes_of list.now) (coercions evaluations.now))) }
{
    let mut code = Code::new(alloc);
    let mut above = ground.copy()?;
    for attribute in list {
        let evaluation = evaluations.of(name_of(attribute).as_str());
        code.join(value(alloc, page, &above, evaluation, attribute)?)?;
        above = behind(&above, evaluation)?;
    }
    Ok(code)
}

/// The code of a visit, and behind it that of the values of the attributes that are evaluated, in
/// order.
#[cycle(nodes)]
pub(crate) fn visited_values(
    alloc: Global,
    page: &Page,
    at: Position,
    evaluations: &Evaluations,
    list: &[ActAttribute],
) -> Result<Code, AllocError>
    ensures { IfOk result (λ code. code ≡ form_code at.entry.ground.now (visits 1 at.entry.place.now)
        ++ form_code at.entry.ground.now (attributes_form (page_of (page_view page.now)) (attributes_of list.now)
        (coercions evaluations.now))) }
{
    let visit = visits(alloc, at.ground, at.place, 1)?;
    joined(visit, values(alloc, page, at.ground, evaluations, list)?)
}

// The code of the value of an attribute, coerced right behind its evaluation. Of a fragment it is
// none.
#[cycle(nodes)]
#[tactic(auto, using(page_acts::proofs::Rows::rows))]
fn value(
    alloc: Global,
    page: &Page,
    ground: &Shape,
    evaluation: Evaluation,
    attribute: &ActAttribute,
) -> Result<Code, AllocError>
    ensures { IfOk result (λ code. code
        ≡ coerced_code ground.now (attribute_place attribute.now) evaluation
        (form_code ground.now (value_form (page_of (page_view page.now)) attribute.now))) }
{
    if is_fragment(evaluation) {
        return Ok(Code::new(alloc));
    }
    match attribute {
        ActAttribute::Written { parts, place, .. } => {
            let value = parts_code(alloc, ground, place, parts)?;
            coerced(alloc, ground, place, evaluation, value)
        }
        ActAttribute::Given {
            trim,
            body,
            place,
            ..
        } => {
            let text = nodes(alloc, page, &ground.keeping()?, body)?;
            let value = given(alloc, ground, place, *trim, text)?;
            coerced(alloc, ground, place, evaluation, value)
        }
    }
}

// The code of the text that an attribute's body writes, behind its visit.
fn given(
    alloc: Global,
    ground: &Shape,
    place: &Place,
    trim: bool,
    body: Code,
) -> Result<Code, AllocError>
    ensures { IfOk result (λ code. code ≡ form_code ground.now (visits 1 place.now)
        ++ kept_code ground.now place.now trim body) }
{
    let text = kept(alloc, ground, place, trim, body)?;
    joined(visits(alloc, ground, place, 1)?, text)
}

// What stands open behind the value of an attribute.
fn behind(ground: &Shape, evaluation: Evaluation) -> Result<Shape, AllocError>
    ensures { IfOk result (λ made. made ≡ behind_value ground.now evaluation) }
{
    if is_fragment(evaluation) {
        ground.copy()
    } else {
        ground.up(1)
    }
}

// Whether an attribute is a fragment, which has no value.
fn is_fragment(evaluation: Evaluation) -> bool
    ensures { result ≡ is_fragment evaluation }
{
    match evaluation {
        Evaluation::Unevaluated => true,
        Evaluation::AsItIs => false,
        Evaluation::To(_) => false,
    }
}
