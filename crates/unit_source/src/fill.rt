ghost use Rattle.std.specs.Prelude.{◌≡◌, map, IfOk, IsOkAnd, OnOk};
ghost use Rattle.unit_source.specs.InPlace.{done, included};
ghost use Rattle.unit_source.specs.Placed.{in_place, node_in_place};
ghost use Rattle.unit_source.specs.ReadSplice.{found_of};
ghost use Rattle.unit_source.specs.ReadSteps.{filled};

use crate::found::FoundNodes;
use crate::placed::{PlacedInclude, PlacedNode, element_node, include_node};
use crate::placing::add;
use crate::second::Alone;
use std::alloc::{AllocError, Global};
use std::collections::VecDeque;

// The nodes of a file with what was found at their include directives, where that didn't fail.
#[inline(never)]
pub(crate) fn fill_file(
    alloc: Global,
    alone: Alone,
    found: Result<VecDeque<FoundNodes>, AllocError>,
) -> Result<Vec<PlacedNode>, AllocError>
    ensures { IfOk result (λ all. IsOkAnd found (λ found. in_place all.items
        ≡ (filled (in_place alone.nodes.items) (map found_of found.items)).nodes)) }
{
    let mut found = found?;
    fill_nodes(alloc, alone.nodes, &mut found)
}

// The nodes with what was found at their include directives: `found` has an entry for each
// directive here, in order, and what is taken goes from its front. Nodes that were included aren't
// filled again.
#[cycle(filling)]
#[tactic(auto, using(crate::proofs::FillLemmas::next_filled, crate::proofs::PlacedLemmas::followed_done))]
fn fill_nodes(
    alloc: Global,
    nodes: Vec<PlacedNode>,
    found: &mut VecDeque<FoundNodes>,
) -> Result<Vec<PlacedNode>, AllocError>
    ensures nodes { IfOk result (λ all. in_place all.items
        ≡ (filled (in_place nodes.items) (map found_of found.old.items)).nodes) }
    ensures left { OnOk result (map found_of found.new.items
        ≡ (filled (in_place nodes.items) (map found_of found.old.items)).left) }
{
    let mut all = Vec::new(alloc);
    for node in nodes {
        let made = fill_node(alloc, node, found)?;
        add(&mut all, made)?;
    }
    Ok(all)
}

// The same of one node: an element by its body, an include directive by the front of `found`.
#[cycle(filling)]
#[tactic(auto, using(crate::proofs::PlacedLemmas::element_placed, crate::proofs::PlacedLemmas::include_placed))]
fn fill_node(
    alloc: Global,
    node: PlacedNode,
    found: &mut VecDeque<FoundNodes>,
) -> Result<PlacedNode, AllocError>
    ensures node { IfOk result (λ made. node_in_place made
        ≡ (filled (node_in_place node) (map found_of found.old.items)).nodes) }
    ensures left { OnOk result (map found_of found.new.items
        ≡ (filled (node_in_place node) (map found_of found.old.items)).left) }
{
    match node {
        PlacedNode::Element(element) => {
            let body = fill_nodes(alloc, element.body, found)?;
            Ok(element_node(element.head, body))
        }
        PlacedNode::Included(include) => Ok(fill_include(include, found)),
        PlacedNode::Leaf(kind, place) => Ok(PlacedNode::Leaf(kind, place)),
        PlacedNode::Broken(fault) => Ok(PlacedNode::Broken(fault)),
    }
}

// An include directive with what was found there, where something is left.
#[tactic(auto, using(crate::proofs::PlacedLemmas::include_placed))]
fn fill_include(include: PlacedInclude, found: &mut VecDeque<FoundNodes>) -> PlacedNode
    ensures node { node_in_place result ≡ (filled (included include.directive include.entry
        (in_place include.body.items) done) (map found_of found.old.items)).nodes }
    ensures left { map found_of found.new.items
        ≡ (filled (included include.directive include.entry (in_place include.body.items) done)
        (map found_of found.old.items)).left }
{
    match found.pop_front() {
        Some(first) => include_node(include.directive, first.entry, first.nodes),
        None => PlacedNode::Included(include),
    }
}
