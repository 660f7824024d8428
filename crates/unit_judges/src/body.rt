ghost use Rattle.std.specs.Prelude.{◌≡◌, ◌++◌, codes, map, IfOk, OnOk};
ghost use Rattle.std.specs.List.{list_all};
ghost use Rattle.page_pieces.specs.Names.{is_white};
ghost use Rattle.jstl_tags.specs.Elements.{opened_of};
ghost use Rattle.jstl_tags.specs.Check.{is_whole};
ghost use Rattle.jstl_tags.specs.Content.{inner, is_standard};
ghost use Rattle.jstl_tags.specs.Standing.{leaf_standing, standing_in, standing_made, tag};
ghost use Rattle.unit_source.specs.InPlace.{flat};
ghost use Rattle.unit_source.specs.Placed.{in_place, node_in_place};

use jstl_tags::{Standing, Standings};
use page_pieces::Leaf;
use page_reader::{Closing, Element};
use std::alloc::{AllocError, Global};
use unit_source::PlacedNode;

// Adds what a leaf is among what stands there.
fn push_leaf<'n>(leaf: &'n Leaf, found: &mut Vec<Standing<'n>>) -> Result<(), AllocError>
    ensures { OnOk result (map standing_made found.new.items ≡ map standing_made found.old.items
        ++ leaf_standing leaf.now) }
{
    match leaf {
        Leaf::Comment => Ok(()),
        Leaf::Directive(_, _) => Ok(()),
        Leaf::Text(text) if is_white(text.as_bytes()) => {
            found.push(Standing::Blank)?;
            Ok(())
        }
        _ => {
            found.push(Standing::Other)?;
            Ok(())
        }
    }
}

/// Whether a text is white space alone, or empty.
pub fn is_white(text: &[u8]) -> bool
    ensures { result ≡ list_all is_white text.now }
{
    text.iter().all(|b| *b == b' ' || *b == b'\t' || *b == b'\r' || *b == b'\n')
}

// An element as it stands there.
fn element_standing<'n>(head: &'n Element) -> Standing<'n>
    ensures { standing_made result ≡ tag (opened_of head.now).tag }
{
    Standing::Element {
        prefix: head.prefix.as_str(),
        name: head.name.as_str(),
        attributes: &head.attributes,
    }
}

/// What stands directly among nodes in place.
pub(crate) fn standings_of<'n>(
    alloc: Global,
    nodes: &'n [PlacedNode],
) -> Result<Standings<'n>, AllocError>
    ensures { IfOk result (λ standings. map standing_made standings ≡ standing_in (flat (in_place nodes.now))) }
{
    let mut found = Vec::new(alloc);
    push_standing(nodes, &mut found)?;
    Standings::new(alloc, found)
}

// Adds what stands directly among nodes in place.
#[cycle(standing)]
#[tactic(auto, using(crate::proofs::PlacedLemmas::one_standing, crate::proofs::PlacedLemmas::element_standing, crate::proofs::PlacedLemmas::include_standing))]
fn push_standing<'n>(
    nodes: &'n [PlacedNode],
    found: &mut Vec<Standing<'n>>,
) -> Result<(), AllocError>
    ensures { OnOk result (map standing_made found.new.items ≡ map standing_made found.old.items
        ++ standing_in (flat (in_place nodes.now))) }
{
    for node in nodes {
        push_node(node, found)?;
    }
    Ok(())
}

#[cycle(standing)]
#[tactic(auto, using(crate::proofs::PlacedLemmas::one_standing, crate::proofs::PlacedLemmas::element_standing, crate::proofs::PlacedLemmas::include_standing))]
fn push_node<'n>(node: &'n PlacedNode, found: &mut Vec<Standing<'n>>) -> Result<(), AllocError>
    ensures { OnOk result (map standing_made found.new.items ≡ map standing_made found.old.items
        ++ standing_in (flat (node_in_place node.now))) }
{
    match node {
        PlacedNode::Leaf(leaf, _) => push_leaf(leaf, found),
        PlacedNode::Element(element) => {
            found.push(element_standing(&element.head))?;
            Ok(())
        }
        PlacedNode::Broken(_) => Ok(()),
        PlacedNode::Included(include) => push_standing(&include.body, found),
    }
}

/// Adds what stands directly in the `jsp:body` elements that stand directly among nodes in place.
#[cycle(inner)]
#[tactic(auto, using(crate::proofs::PlacedLemmas::one_inner, crate::proofs::PlacedLemmas::element_inner, crate::proofs::PlacedLemmas::include_inner))]
pub(crate) fn push_inner<'n>(
    nodes: &'n [PlacedNode],
    found: &mut Vec<Standing<'n>>,
) -> Result<(), AllocError>
    ensures { OnOk result (map standing_made found.new.items ≡ map standing_made found.old.items
        ++ standing_in (inner (flat (in_place nodes.now)))) }
{
    for node in nodes {
        push_inner_node(node, found)?;
    }
    Ok(())
}

#[cycle(inner)]
#[tactic(auto, using(crate::proofs::PlacedLemmas::one_inner, crate::proofs::PlacedLemmas::element_inner, crate::proofs::PlacedLemmas::include_inner))]
fn push_inner_node<'n>(
    node: &'n PlacedNode,
    found: &mut Vec<Standing<'n>>,
) -> Result<(), AllocError>
    ensures { OnOk result (map standing_made found.new.items ≡ map standing_made found.old.items
        ++ standing_in (inner (flat (node_in_place node.now)))) }
{
    match node {
        PlacedNode::Element(element) if is_body(&element.head) => {
            push_standing(&element.body, found)
        }
        PlacedNode::Included(include) => push_inner(&include.body, found),
        _ => Ok(()),
    }
}

/// Whether all of an element was read.
pub(crate) fn is_whole(closing: Closing) -> bool
    ensures { result ≡ is_whole closing }
{
    match closing {
        Closing::Open => false,
        _ => true,
    }
}

// Whether an element is `jsp:body`.
fn is_body(head: &Element) -> bool
    ensures { result ≡ is_standard (codes "body") (opened_of head.now).tag }
{
    head.prefix.as_str() == "jsp" && head.name.as_str() == "body"
}
