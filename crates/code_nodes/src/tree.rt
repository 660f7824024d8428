// Nodes.
ghost use Rattle.std.specs.Prelude.{◌≡◌, ◌++◌, IfOk};
ghost use Rattle.page_acts.specs.Views.{act_of, acts_of};
ghost use Rattle.code_forms.specs.Codes.{form_code};
ghost use Rattle.code_lowering.specs.Expressions.{visits};
ghost use Rattle.code_lowering.specs.Lowering.{node_form, node_visits, nodes_form};
ghost use Rattle.page_meaning.specs.Page.{place_of};
ghost use Rattle.unit_meaning.specs.Shape.{page_of};
ghost use Rattle.unit_nodes.specs.Views.{page_view};

use crate::actions::{addressed, enclosed, properties};
use crate::calls::call;
use crate::choices::branches as branches_code;
use crate::position::Position;
use code_actions::{
    UseBean, catch, do_body, get_property, invoke, remove, shown, template, use_bean,
};
use code_expressions::{first_visits, visits};
use code_forms::joined;
use page_acts::Act;
use page_code::{Code, Shape};
use std::alloc::{AllocError, Global};
use unit_nodes::Page;

/// The code of nodes in the unit of a page, one after the other, each behind its visits.
#[cycle(nodes)]
pub fn nodes(alloc: Global, page: &Page, ground: &Shape, acts: &[Act]) -> Result<Code, AllocError>
    ensures { IfOk result (λ code. code ≡ form_code ground.now (nodes_form (page_of (page_view page.now))
        (acts_of acts.now))) }
{
    let mut code = Code::new(alloc);
    for act in acts {
        code.join(visited(alloc, page, ground, act)?)?;
    }
    Ok(code)
}

// The code of a node with its visits.
#[cycle(nodes)]
fn visited(alloc: Global, page: &Page, ground: &Shape, act: &Act) -> Result<Code, AllocError>
    ensures { IfOk result (λ code. code
        ≡ form_code ground.now (visits (node_visits (act_of act.now)) (place_of (act_of act.now)))
        ++ form_code ground.now (node_form (page_of (page_view page.now)) (act_of act.now))) }
{
    let seen = visits(alloc, ground, act.place(), node_visits(act)?)?;
    joined(seen, node(alloc, page, ground, act)?)
}

// How many visits stand before a node, which one instruction counts: its own, and the first ones of
// the expression that it shows. More than 32 bits hold are answered as if memory ran out.
#[tactic(auto, using(page_acts::proofs::Rows::rows, crate::proofs::ActionLemmas::action_visits))]
fn node_visits(act: &Act) -> Result<u32, AllocError>
    ensures { IfOk result (λ count. count ≡ node_visits (act_of act.now)) }
{
    match act {
        Act::Shown { el, place: _ } => first_visits(1, el),
        _ => Ok(1),
    }
}

// The code of a node behind its visits.
#[cycle(nodes)]
#[tactic(auto, using(page_acts::proofs::Rows::rows))]
fn node(alloc: Global, page: &Page, ground: &Shape, act: &Act) -> Result<Code, AllocError>
    ensures { IfOk result (λ code. code ≡ form_code ground.now (node_form (page_of (page_view page.now))
        (act_of act.now))) }
{
    match act {
        Act::Template { text, place } => template(alloc, ground, place, text),
        Act::Shown { el, place } => shown(alloc, ground, place, el),
        Act::Enclosed {
            action,
            attributes,
            body,
            place,
        } => {
            let at = Position { ground, place };
            enclosed(alloc, page, at, action, attributes, body)
        }
        Act::Addressed {
            action,
            attributes,
            params,
            place,
        } => {
            let at = Position { ground, place };
            addressed(alloc, page, at, action, attributes, params)
        }
        Act::Remove { variable, place } => remove(alloc, ground, place, variable),
        Act::Catch {
            variable,
            body,
            place,
        } => {
            let body = nodes(alloc, page, &ground.trying()?, body)?;
            catch(alloc, ground, place, variable, body)
        }
        Act::Choose { branches, place: _ } => branches_code(alloc, page, ground, branches),
        Act::UseBean {
            name,
            scope,
            class,
            body,
            place,
        } => {
            let part = nodes(alloc, page, ground, body)?;
            let action = UseBean {
                name,
                scope: *scope,
                class,
            };
            use_bean(alloc, ground, place, &page.beans, &action, part)
        }
        Act::GetProperty {
            name,
            property,
            place,
        } => { get_property(alloc, ground, place, name, property) }
        Act::SetProperty {
            name,
            property,
            attributes,
            place,
        } => {
            let at = Position { ground, place };
            properties(alloc, page, at, name, property, attributes)
        }
        Act::Group { body, place: _ } => nodes(alloc, page, ground, body),
        Act::DoBody { variable, place } => do_body(alloc, ground, place, variable),
        Act::Invoke {
            fragment,
            variable,
            place,
        } => { invoke(alloc, ground, place, fragment, variable) }
        Act::Call {
            path,
            attributes,
            body,
            place,
        } => {
            let at = Position { ground, place };
            call(alloc, page, at, path, attributes, body)
        }
    }
}
