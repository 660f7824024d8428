// Params.
ghost use Rattle.std.specs.Prelude.{◌≡◌, IfOk, codes};
ghost use Rattle.page_acts.specs.Views.{acts_of, attributes_of, params_of};
ghost use Rattle.page_code.specs.Shapes.{keeping, up};
ghost use Rattle.code_forms.specs.Codes.{form_code};
ghost use Rattle.code_lowering.specs.Lowering.{nodes_form, params_form};
ghost use Rattle.unit_meaning.specs.Shape.{page_of};
ghost use Rattle.unit_nodes.specs.Views.{page_view};
ghost use Rattle.code_nodes.specs.Params.{name_and_value_code, param_form};

use crate::attributes::visited_values;
use crate::names::evaluated_names;
use crate::position::Position;
use crate::tree::nodes;
use code_actions::{Evaluations, param as param_code, param_ground};
use code_forms::joined;
use page_acts::ActParam;
use page_code::{Code, Shape};
use std::alloc::{AllocError, Global};
use unit_nodes::Page;

/// The code of the names and the values of params, in order.
#[cycle(nodes)]
pub(crate) fn params(
    alloc: Global,
    page: &Page,
    ground: &Shape,
    list: &[ActParam],
) -> Result<Code, AllocError>
    ensures { IfOk result (λ code. code ≡ form_code ground.now (params_form (page_of (page_view page.now))
        (params_of list.now))) }
{
    let mut code = Code::new(alloc);
    let mut above = ground.copy()?;
    for made in list {
        code.join(param(alloc, page, &above, made)?)?;
        above = above.up(2)?;
    }
    Ok(code)
}

// The code of the name and the value of a param, behind its visit.
#[cycle(nodes)]
fn param(alloc: Global, page: &Page, ground: &Shape, made: &ActParam) -> Result<Code, AllocError>
    ensures { IfOk result (λ code. code
        ≡ form_code ground.now (param_form (page_of (page_view page.now))
        (attributes_of made.now.attributes.items) (acts_of made.now.body.items) made.now.place.now)) }
{
    let place = made.place;
    let at = Position { ground, place };
    let values = visited_values(alloc, page, at, &Evaluations::Param, &made.attributes)?;
    joined(values, name_and_value(alloc, page, ground, made)?)
}

// The code of the name and the value, behind the values of the attributes.
#[cycle(nodes)]
fn name_and_value(
    alloc: Global,
    page: &Page,
    ground: &Shape,
    made: &ActParam,
) -> Result<Code, AllocError>
    ensures { IfOk result (λ code. code ≡ name_and_value_code ground.now made.now.place.now
        (attributes_of made.now.attributes.items)
        (form_code (keeping (up 1 ground.now)) (nodes_form (page_of (page_view page.now))
        (acts_of made.now.body.items)))) }
{
    let body = nodes(alloc, page, &param_ground(ground)?, &made.body)?;
    let names = evaluated_names(alloc, &Evaluations::Param, &made.attributes)?;
    param_code(alloc, ground, made.place, &names, body)
}
