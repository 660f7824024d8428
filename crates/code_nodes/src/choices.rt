// Choices.
ghost use Rattle.std.specs.Prelude.{◌≡◌, ◌++◌, ◌∷◌, [], IfOk};
ghost use Rattle.code_actions.specs.Choosing.{before};
ghost use Rattle.page_acts.specs.Views.{acts_of, attributes_of, branches_of};
ghost use Rattle.code_forms.specs.Codes.{form_code};
ghost use Rattle.code_lowering.specs.Expressions.{visits};
ghost use Rattle.code_lowering.specs.Lowering.{branches_form, nodes_form};
ghost use Rattle.page_meaning.specs.Page.{Branches, when};
ghost use Rattle.unit_meaning.specs.Shape.{page_of};
ghost use Rattle.unit_nodes.specs.Views.{page_view};

use crate::attributes::visited_values;
use crate::names::evaluated_names;
use crate::position::Position;
use crate::tree::nodes;
use code_actions::{Evaluations, TestedBranch, choice, when as when_code};
use code_expressions::visits;
use code_forms::joined;
use page_acts::{Act, ActAttribute, ActBranch};
use page_code::{Code, Shape};
use std::alloc::{AllocError, Global};
use unit_nodes::Page;

/// The code of the first branch whose test is true. It goes from branch to branch in a loop: a
/// choice is as long as it likes.
#[cycle(nodes)]
pub(crate) fn branches(
    alloc: Global,
    page: &Page,
    ground: &Shape,
    branches: &[ActBranch],
) -> Result<Code, AllocError>
    ensures { IfOk result (λ code. code ≡ form_code ground.now (branches_form (page_of (page_view page.now))
        (branches_of branches.now))) }
{
    let mut whens = Vec::new(alloc);
    for branch in branches {
        match branch {
            ActBranch::When {
                attributes,
                body,
                place,
            } => {
                let at = Position { ground, place };
                whens.push(when(alloc, page, at, attributes, body)?)?;
            }
            ActBranch::Otherwise { body, place } => {
                let last = otherwise(alloc, page, Position { ground, place }, body)?;
                return choice(alloc, ground, whens, last);
            }
        }
    }
    choice(alloc, ground, whens, Code::new(alloc))
}

// The code of a branch with a test, as far as its body goes.
#[cycle(nodes)]
fn when(
    alloc: Global,
    page: &Page,
    at: Position,
    attributes: &[ActAttribute],
    body: &[Act],
) -> Result<TestedBranch, AllocError>
    ensures { IfOk result (λ made. (others : Branches) →
        before at.entry.ground.now (made ∷ [])
        (form_code at.entry.ground.now (branches_form (page_of (page_view page.now)) others))
        ≡ form_code at.entry.ground.now (branches_form (page_of (page_view page.now))
        (when (attributes_of attributes.now) (acts_of body.now) at.entry.place.now others))) }
{
    let code = visited_values(alloc, page, at, &Evaluations::Test, attributes)?;
    let body = nodes(alloc, page, at.ground, body)?;
    let names = evaluated_names(alloc, &Evaluations::Test, attributes)?;
    let made = when_code(alloc, at.ground, at.place, &names, code, body)?;
    Ok(made)
}

// The code of the branch without a test.
#[cycle(nodes)]
fn otherwise(alloc: Global, page: &Page, at: Position, body: &[Act]) -> Result<Code, AllocError>
    ensures { IfOk result (λ code. code ≡ form_code at.entry.ground.now (visits 1 at.entry.place.now)
        ++ form_code at.entry.ground.now (nodes_form (page_of (page_view page.now)) (acts_of body.now))) }
{
    let visit = visits(alloc, at.ground, at.place, 1)?;
    joined(visit, nodes(alloc, page, at.ground, body)?)
}
