ghost use Rattle.std.specs.Prelude.{◌≡◌, ◌++◌, IfOk, OnOk};
ghost use Rattle.unit_source.specs.InPlace.{all_directives};
ghost use Rattle.unit_source.specs.Placed.{in_place, node_in_place, root_view};

use crate::{PlacedNode, Root, WrittenDirective};
use page_directives::Directive;
use page_pieces::Leaf;
use std::alloc::{AllocError, Global};

/// The directives of nodes in place, in reading order.
pub fn directives<'n>(
    alloc: Global,
    nodes: &'n [PlacedNode],
) -> Result<Vec<Directive<'n>>, AllocError>
    ensures { IfOk result (λ all. all.items ≡ all_directives (in_place nodes.now)) }
{
    let mut all = Vec::new(alloc);
    add_directives(alloc, nodes, &mut all)?;
    Ok(all)
}

/// The directives of the first reading, in reading order.
pub fn first_directives<'r>(alloc: Global, root: &'r Root) -> Result<Vec<Directive<'r>>, AllocError>
    ensures { IfOk result (λ all. all.items ≡ (root_view root.now).first) }
{
    borrowed(alloc, root.first.as_slice())
}

// Directives as their faults are asked for.
pub(crate) fn borrowed<'d>(
    alloc: Global,
    directives: &'d [WrittenDirective],
) -> Result<Vec<Directive<'d>>, AllocError>
    ensures { IfOk result (λ all. all.items ≡ directives.now) }
{
    let mut all = Vec::with_capacity(alloc, directives.len())?;
    for directive in directives {
        all.push(directive.borrowed(alloc)?)?;
    }
    Ok(all)
}

// Adds the directives of nodes.
#[cycle(order)]
fn add_directives<'n>(
    alloc: Global,
    nodes: &'n [PlacedNode],
    all: &mut Vec<Directive<'n>>,
) -> Result<(), AllocError>
    ensures { OnOk result (all.new.items ≡ all.old.items ++ all_directives (in_place nodes.now)) }
{
    for node in nodes {
        add_node_directives(alloc, node, all)?;
    }
    Ok(())
}

// The same of one node. Behind an include directive come those of the file that it includes.
#[cycle(order)]
#[tactic(auto, using(crate::proofs::OrderLemmas::element_ordered, crate::proofs::OrderLemmas::include_ordered))]
fn add_node_directives<'n>(
    alloc: Global,
    node: &'n PlacedNode,
    all: &mut Vec<Directive<'n>>,
) -> Result<(), AllocError>
    ensures { OnOk result (all.new.items ≡ all.old.items ++ all_directives (node_in_place node.now)) }
{
    match node {
        PlacedNode::Leaf(Leaf::Directive(name, attributes), place) => {
            all.push(Directive::new(alloc, name.as_str(), attributes, place)?)?;
            Ok(())
        }
        PlacedNode::Element(element) => add_directives(alloc, &element.body, all),
        PlacedNode::Included(include) => {
            all.push(include.directive.borrowed(alloc)?)?;
            add_directives(alloc, &include.body, all)
        }
        PlacedNode::Leaf(Leaf::Text(_), _) => Ok(()),
        PlacedNode::Leaf(Leaf::Comment, _) => Ok(()),
        PlacedNode::Leaf(Leaf::Expr(_), _) => Ok(()),
        PlacedNode::Leaf(Leaf::Hash, _) => Ok(()),
        PlacedNode::Broken(_) => Ok(()),
    }
}
