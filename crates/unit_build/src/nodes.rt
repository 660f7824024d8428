ghost use Rattle.std.specs.Prelude.{◌≡◌, ◌++◌, map, IfOk, OnOk};
ghost use Rattle.jstl_tags.specs.Elements.{opened_of};
ghost use Rattle.unit_source.specs.InPlace.{done, element};
ghost use Rattle.unit_source.specs.Placed.{in_place, node_in_place};
ghost use Rattle.unit_words.specs.Build.{action_of, built, given_of as made_of, has_body};
ghost use Rattle.unit_words.specs.Build.{leaf_before, part_of, parts_of};
ghost use Rattle.unit_nodes.specs.Nodes.{action, done as nothing, joined};
ghost use Rattle.unit_nodes.specs.Views.{given_of, kind_of as kind_view, node_of, nodes_of};
ghost use Rattle.unit_nodes.specs.Views.{part_of as part_view};

use page_pieces::{Attribute, Leaf, Part};
use page_reader::{Closing, Element};
use pg_text::{Failure, Listed, Place};
use std::alloc::{AllocError, Global};
use unit_judges::{Kind, Readings, Registered, kind_of};
use unit_nodes::{
    Action, ActionKind, UnitAttribute, UnitAttributes, UnitNode, UnitPart, UnitParts,
};
use unit_source::{PlacedElement, PlacedNode};

/// The nodes of a page or a tag file with these directives. What has a fault is left out.
pub(crate) fn built_nodes(
    alloc: Global,
    directives: &Registered,
    nodes: &[PlacedNode],
    readings: &mut Readings,
) -> Result<Vec<UnitNode>, AllocError>
    ensures { IfOk result (λ made. nodes_of made.items ≡ built directives.now (in_place nodes.now)) }
{
    let mut made = Vec::new(alloc);
    add_nodes(alloc, directives, nodes, &mut made, readings)?;
    Ok(made)
}

// Adds what nodes in place come to.
#[cycle(building)]
fn add_nodes(
    alloc: Global,
    directives: &Registered,
    nodes: &[PlacedNode],
    made: &mut Vec<UnitNode>,
    readings: &mut Readings,
) -> Result<(), AllocError>
    ensures { OnOk result (nodes_of made.new.items
        ≡ joined (nodes_of made.old.items) (built directives.now (in_place nodes.now))) }
{
    for node in nodes {
        add_node(alloc, directives, node, made, readings)?;
    }
    Ok(())
}

#[cycle(building)]
#[tactic(auto, using(crate::proofs::BuiltLemmas::broken_built, crate::proofs::BuiltLemmas::element_built, crate::proofs::BuiltLemmas::include_built))]
fn add_node(
    alloc: Global,
    directives: &Registered,
    node: &PlacedNode,
    made: &mut Vec<UnitNode>,
    readings: &mut Readings,
) -> Result<(), AllocError>
    ensures { OnOk result (nodes_of made.new.items
        ≡ joined (nodes_of made.old.items) (built directives.now (node_in_place node.now))) }
{
    match node {
        PlacedNode::Leaf(leaf, place) => add_leaf(alloc, leaf, place, made, readings),
        PlacedNode::Element(element) => add_element(alloc, directives, element, made, readings),
        PlacedNode::Broken(_) => Ok(()),
        PlacedNode::Included(include) => add_nodes(
            alloc,
            directives,
            &include.body,
            made,
            readings,
        ),
    }
}

// Adds what an element comes to.
#[inline(never)]
#[cycle(building)]
#[tactic(auto, using(unit_nodes::proofs::NodeLemmas::joined_done))]
fn add_element(
    alloc: Global,
    directives: &Registered,
    placed: &PlacedElement,
    made: &mut Vec<UnitNode>,
    readings: &mut Readings,
) -> Result<(), AllocError>
    ensures { OnOk result (nodes_of made.new.items
        ≡ joined (nodes_of made.old.items) (built directives.now
        (element (opened_of placed.now.head) (in_place placed.now.body.items) done))) }
{
    let kind = match kind_of(alloc, directives, &placed.head)? {
        Kind::Core(name, _) => ActionKind::Core(name),
        Kind::Standard(name, _) => ActionKind::Jsp(name),
        Kind::Call(path) => ActionKind::Tag(path),
        Kind::Refused(_) => return Ok(()),
    };
    add_action(alloc, directives, kind, placed, made, readings)
}

// Adds an element as an action of this kind.
#[cycle(building)]
fn add_action(
    alloc: Global,
    directives: &Registered,
    kind: ActionKind,
    placed: &PlacedElement,
    made: &mut Vec<UnitNode>,
    readings: &mut Readings,
) -> Result<(), AllocError>
    ensures { OnOk result (nodes_of made.new.items
        ≡ joined (nodes_of made.old.items) (action (action_of (kind_view kind) (opened_of placed.now.head))
        (built directives.now (in_place placed.now.body.items)) nothing)) }
{
    let attributes = attributes_of(alloc, placed.head.attributes.as_slice(), readings)?;
    let mut body = Vec::new(alloc);
    add_nodes(alloc, directives, &placed.body, &mut body, readings)?;
    let node = action_node(kind, &placed.head, attributes, body)?;
    add(made, node)
}

// An element as an action of this kind with its attributes and this body.
#[inline(never)]
#[tactic(auto, using(unit_nodes::proofs::NodeLemmas::action_is))]
fn action_node(
    kind: ActionKind,
    head: &Element,
    attributes: UnitAttributes,
    body: Vec<UnitNode>,
) -> Result<UnitNode, AllocError>
    requires { map given_of attributes ≡ map made_of head.now.attributes }
    ensures { IfOk result (λ node. node_of node ≡ action (action_of (kind_view kind) (opened_of head.now))
        (nodes_of body.items) nothing) }
{
    Ok(UnitNode::Action(Action {
        kind,
        attributes,
        has_body: has_body(head.closing),
        body,
        source: head.source.copy()?,
        place: head.place.copy()?,
    }))
}

// Adds a node at the end.
#[inline(never)]
#[tactic(auto, using(unit_nodes::proofs::NodeLemmas::nodes_push))]
fn add(nodes: &mut Vec<UnitNode>, node: UnitNode) -> Result<(), AllocError>
    ensures { OnOk result (nodes_of nodes.new.items ≡ joined (nodes_of nodes.old.items) (node_of node)) }
{
    nodes.push(node)?;
    Ok(())
}

// Adds what a leaf comes to.
#[inline(never)]
#[tactic(auto, using(unit_nodes::proofs::NodeLemmas::joined_done))]
fn add_leaf(
    alloc: Global,
    leaf: &Leaf,
    place: &Place,
    made: &mut Vec<UnitNode>,
    readings: &mut Readings,
) -> Result<(), AllocError>
    ensures { OnOk result (nodes_of made.new.items
        ≡ joined (nodes_of made.old.items) (leaf_before leaf.now place.now nothing)) }
{
    match leaf {
        Leaf::Text(text) => {
            let node = UnitNode::Text {
                text: text.copy()?,
                place: place.copy()?,
            };
            add(made, node)
        }
        Leaf::Expr(text) => match readings.take(alloc, text) {
            Ok(el) => add(
                made,
                UnitNode::Expr {
                    el,
                    place: place.copy()?,
                },
            ),
            Err(Failure::Fault(_)) => Ok(()),
            Err(Failure::NoMemory) => Err(AllocError),
        },
        Leaf::Comment => Ok(()),
        Leaf::Hash => Ok(()),
        Leaf::Directive(_, _) => Ok(()),
    }
}

fn has_body(closing: Closing) -> bool
    ensures { result ≡ has_body closing }
{
    match closing {
        Closing::Empty => false,
        _ => true,
    }
}

// The attributes of an element.
fn attributes_of(
    alloc: Global,
    written: &[Attribute],
    readings: &mut Readings,
) -> Result<UnitAttributes, AllocError>
    ensures { IfOk result (λ attributes. map given_of attributes ≡ map made_of written.now) }
{
    let mut attributes = Listed::empty(alloc);
    for attribute in written {
        attributes.push(attribute_of(alloc, attribute, readings)?)?;
    }
    Ok(attributes)
}

fn attribute_of(
    alloc: Global,
    written: &Attribute,
    readings: &mut Readings,
) -> Result<UnitAttribute, AllocError>
    ensures { IfOk result (λ attribute. given_of attribute ≡ made_of written.now) }
{
    Ok(UnitAttribute {
        name: written.name.copy()?,
        parts: parts_of(alloc, written.parts.as_slice(), readings)?,
        place: written.place.copy()?,
    })
}

// The parts of a value.
fn parts_of(
    alloc: Global,
    written: &[Part],
    readings: &mut Readings,
) -> Result<UnitParts, AllocError>
    ensures { IfOk result (λ parts. map part_view parts ≡ parts_of written.now) }
{
    let mut parts = Listed::empty(alloc);
    for part in written {
        add_part(alloc, part, &mut parts, readings)?;
    }
    Ok(parts)
}

fn add_part(
    alloc: Global,
    written: &Part,
    parts: &mut UnitParts,
    readings: &mut Readings,
) -> Result<(), AllocError>
    ensures { OnOk result (map part_view parts.new ≡ map part_view parts.old ++ part_of written.now) }
{
    match written {
        Part::Text(text) => parts.push(UnitPart::Text(text.copy()?)),
        Part::Expr(text) => match readings.take(alloc, text) {
            Ok(el) => parts.push(UnitPart::Expr(el)),
            Err(Failure::Fault(_)) => Ok(()),
            Err(Failure::NoMemory) => Err(AllocError),
        },
        Part::Hash => Ok(()),
    }
}
