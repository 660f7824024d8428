ghost use Rattle.std.specs.Prelude.{◌≡◌, ◌<◌, ◌+◌, ◌++◌, map, OnOk, IfOk};
ghost use Rattle.pg_text.specs.declared.place.Place.{Place};
ghost use Rattle.unit_source.specs.Placed.{in_place, node_in_place};
ghost use Rattle.unit_source.specs.ReadSteps.{steps_of};
ghost use Rattle.unit_source.specs.ReadSplice.{step_of};
ghost use Rattle.unit_source.specs.Splice.{level_within, registered};

use crate::prefixes::push_own;
use crate::progress::MAX_NESTING;
use crate::{PlacedNode, WrittenDirective};
use page_pieces::Leaf;
use pg_text::{Listed, Text};
use std::alloc::{AllocError, Global};

// What changes how the reading of a file goes on.
#[derive(Drop)]
pub(crate) enum Step {
    // Prefixes are registered.
    Registers(Listed<Text>),
    // An include directive within so many open elements.
    Includes(usize, WrittenDirective),
}

// The prefixes that a leaf registers.
fn registered(alloc: Global, kind: &Leaf) -> Result<Listed<Text>, AllocError>
    ensures { (place : Place) → IfOk result (λ prefixes. prefixes ≡ registered kind.now place) }
{
    let mut prefixes = Listed::empty(alloc);
    if let Leaf::Directive(name, attributes) = kind {
        push_own(alloc, &mut prefixes, name.as_str(), attributes)?;
    }
    Ok(prefixes)
}

/// How many elements are open within one more, counted no further than one over [`MAX_NESTING`].
pub fn level_within(around: usize) -> usize
    ensures { result ≡ level_within around }
{
    if around <= MAX_NESTING {
        around + 1
    } else {
        around
    }
}

// Adds the steps of nodes within so many open elements, in reading order.
#[inline(never)]
#[cycle(steps)]
#[tactic(auto, using(crate::proofs::StepLemmas::one_stepped))]
pub(crate) fn add_steps(
    alloc: Global,
    nodes: &[PlacedNode],
    around: usize,
    steps: &mut Vec<Step>,
) -> Result<(), AllocError>
    ensures { OnOk result (map step_of steps.new.items ≡ map step_of steps.old.items ++ steps_of around
        (in_place nodes.now)) }
{
    for node in nodes {
        add_node_steps(alloc, node, around, steps)?;
    }
    Ok(())
}

// The same of one node: an element by its body, a level deeper.
#[cycle(steps)]
#[tactic(auto, using(crate::proofs::StepLemmas::element_steps, crate::proofs::StepLemmas::include_steps))]
fn add_node_steps(
    alloc: Global,
    node: &PlacedNode,
    around: usize,
    steps: &mut Vec<Step>,
) -> Result<(), AllocError>
    ensures { OnOk result (map step_of steps.new.items ≡ map step_of steps.old.items ++ steps_of around
        (node_in_place node.now)) }
{
    match node {
        PlacedNode::Leaf(kind, _) => {
            steps.push(Step::Registers(registered(alloc, kind)?))?;
            Ok(())
        }
        PlacedNode::Element(element) => add_steps(
            alloc,
            &element.body,
            level_within(around),
            steps,
        ),
        PlacedNode::Broken(_) => Ok(()),
        PlacedNode::Included(include) => {
            steps.push(Step::Includes(around, include.directive.copy()?))?;
            Ok(())
        }
    }
}
