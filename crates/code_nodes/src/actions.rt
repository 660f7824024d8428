// Actions with attributes, around a body or on an address.
ghost use Rattle.std.specs.Prelude.{◌≡◌, IfOk};
ghost use Rattle.page_acts.specs.Views.{acts_of, addressing_node, attributes_of, enclosing_node};
ghost use Rattle.page_acts.specs.Views.{params_of, property_of};
ghost use Rattle.code_forms.specs.Codes.{form_code};
ghost use Rattle.code_lowering.specs.Lowering.{node_form};
ghost use Rattle.page_meaning.specs.Page.{set_property};
ghost use Rattle.unit_meaning.specs.Shape.{page_of};
ghost use Rattle.unit_nodes.specs.Views.{page_view};
ghost use Rattle.code_nodes.specs.Actions.{around_code, on_address_code, property_set_code};

use crate::attributes::values;
use crate::names::{evaluated_names, value_place};
use crate::params::params;
use crate::position::Position;
use crate::tree::nodes;
use code_actions::{
    Evaluations, Params, SetProperty, addressing_code, addressing_evaluations, enclosing_code,
    enclosing_evaluations, enclosing_ground, set_property,
};
use code_forms::joined;
use page_acts::{Act, ActAttribute, ActParam, Addressing, Enclosing, Property};
use page_code::Code;
use pg_text::Text;
use std::alloc::{AllocError, Global};
use unit_nodes::Page;

/// The code of an action around a body.
#[cycle(nodes)]
pub(crate) fn enclosed(
    alloc: Global,
    page: &Page,
    at: Position,
    action: &Enclosing,
    attributes: &[ActAttribute],
    body: &[Act],
) -> Result<Code, AllocError>
    ensures { IfOk result (λ code. code
        ≡ form_code at.entry.ground.now (node_form (page_of (page_view page.now))
        (enclosing_node action.now (attributes_of attributes.now) (acts_of body.now) at.entry.place.now))) }
{
    let evaluations = enclosing_evaluations(action);
    let code = values(alloc, page, at.ground, &evaluations, attributes)?;
    joined(code, around(alloc, page, at, action, attributes, body)?)
}

// The code of an action around a body, behind the values of its attributes.
#[cycle(nodes)]
fn around(
    alloc: Global,
    page: &Page,
    at: Position,
    action: &Enclosing,
    attributes: &[ActAttribute],
    body: &[Act],
) -> Result<Code, AllocError>
    ensures { IfOk result (λ code. code ≡ around_code at.entry.ground.now at.entry.place.now
        (page_of (page_view page.now)) (attributes_of attributes.now) action.now (acts_of body.now)) }
{
    let names = evaluated_names(alloc, &enclosing_evaluations(action), attributes)?;
    let within = enclosing_ground(action, at.ground, &names)?;
    let body = nodes(alloc, page, &within, body)?;
    enclosing_code(alloc, at.ground, at.place, action, names, body)
}

/// The code of an action on an address with params.
#[cycle(nodes)]
pub(crate) fn addressed(
    alloc: Global,
    page: &Page,
    at: Position,
    action: &Addressing,
    attributes: &[ActAttribute],
    list: &[ActParam],
) -> Result<Code, AllocError>
    ensures { IfOk result (λ code. code
        ≡ form_code at.entry.ground.now (node_form (page_of (page_view page.now))
        (addressing_node action.now (attributes_of attributes.now) (params_of list.now) at.entry.place.now))) }
{
    let evaluations = addressing_evaluations(action);
    let code = values(alloc, page, at.ground, &evaluations, attributes)?;
    joined(code, on_address(alloc, page, at, action, attributes, list)?)
}

// The code of an action on an address, behind the values of its attributes.
#[cycle(nodes)]
fn on_address(
    alloc: Global,
    page: &Page,
    at: Position,
    action: &Addressing,
    attributes: &[ActAttribute],
    list: &[ActParam],
) -> Result<Code, AllocError>
    ensures { IfOk result (λ code. code ≡ on_address_code at.entry.ground.now at.entry.place.now
        (page_of (page_view page.now)) (attributes_of attributes.now) action.now (params_of list.now)) }
{
    let cells = params(alloc, page, &at.ground.up(1)?, list)?;
    let names = evaluated_names(alloc, &addressing_evaluations(action), attributes)?;
    let given = Params {
        count: list.len(),
        code: cells,
    };
    addressing_code(alloc, at.ground, at.place, action, &names, given)
}

/// The code of `jsp:setProperty`.
#[cycle(nodes)]
pub(crate) fn properties(
    alloc: Global,
    page: &Page,
    at: Position,
    name: &Text,
    property: &Property,
    attributes: &[ActAttribute],
) -> Result<Code, AllocError>
    ensures { IfOk result (λ code. code
        ≡ form_code at.entry.ground.now (node_form (page_of (page_view page.now))
        (set_property name.now (property_of property.now) (attributes_of attributes.now) at.entry.place.now))) }
{
    let code = values(alloc, page, at.ground, &Evaluations::AsTheyAre, attributes)?;
    joined(code, property_set(alloc, at, name, property, attributes)?)
}

// The code of `jsp:setProperty`, behind the values of its attributes.
fn property_set(
    alloc: Global,
    at: Position,
    name: &Text,
    property: &Property,
    attributes: &[ActAttribute],
) -> Result<Code, AllocError>
    ensures { IfOk result (λ code. code ≡ property_set_code at.entry.ground.now at.entry.place.now
        (attributes_of attributes.now) name.now (property_of property.now)) }
{
    let names = evaluated_names(alloc, &Evaluations::AsTheyAre, attributes)?;
    let action = SetProperty {
        name,
        property,
        value_place: value_place(attributes, at.place),
    };
    set_property(alloc, at.ground, at.place, &action, &names)
}
