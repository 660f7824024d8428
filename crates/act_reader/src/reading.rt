// The walk over a unit's nodes.
ghost use Rattle.std.specs.Prelude.{◌≡◌, IfOk, OnOk};
ghost use Rattle.act_reader.specs.Contents.{before, children_view};
ghost use Rattle.page_acts.specs.Views.{acts_of};
ghost use Rattle.unit_meaning.specs.Shape.{children_of, nodes_of as shape_of};
ghost use Rattle.unit_nodes.specs.Nodes.{Nodes, joined};
ghost use Rattle.unit_nodes.specs.Views.{node_of, nodes_of};

use crate::contents::Children;
use crate::roles::add_action;
use page_acts::Act;
use std::alloc::{AllocError, Global};
use unit_nodes::UnitNode;

/// The acts that a unit's nodes are, in order.
pub fn acts<'u>(alloc: Global, nodes: &'u [UnitNode]) -> Result<Vec<Act<'u>>, AllocError>
    ensures { IfOk result (λ acts. acts_of acts.items ≡ shape_of (nodes_of nodes.now)) }
{
    let children = children_in(alloc, nodes)?;
    Ok(children.own.acts)
}

// The children of an action whose body these nodes are.
#[cycle(reading)]
fn children_in<'u>(alloc: Global, nodes: &'u [UnitNode]) -> Result<Children<'u>, AllocError>
    ensures { IfOk result (λ children. children_view children ≡ children_of (nodes_of nodes.now)) }
{
    let mut children = Children::empty(alloc);
    for node in nodes {
        add_node(alloc, node, &mut children)?;
    }
    Ok(children)
}

// Adds what a node is to the children of an action: an action goes to its acts, parameters,
// branches or parts, by what it is. The clause says what the children are, whatever comes behind
// the node.
#[cycle(reading)]
fn add_node<'u>(
    alloc: Global,
    node: &'u UnitNode,
    children: &mut Children<'u>,
) -> Result<(), AllocError>
    ensures { OnOk result ((rest : Nodes) → before children.new (children_of rest)
        ≡ before children.old (children_of (joined (node_of node.now) rest))) }
{
    match node {
        UnitNode::Text { text, place } => children.add_act(Act::Template { text, place }),
        UnitNode::Expr { el, place } => children.add_act(Act::Shown { el, place }),
        UnitNode::Action(action) => {
            let inner = children_in(alloc, &action.body)?;
            add_action(alloc, action, inner, children)
        }
    }
}
