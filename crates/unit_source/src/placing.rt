ghost use Rattle.std.specs.Prelude.{◌≡◌, IfOk, OnOk};
ghost use Rattle.std.specs.List.{list_all};
ghost use Rattle.page_pieces.specs.Names.{is_white};
ghost use Rattle.page_pieces.specs.declared.piece.Leaf.TheVariants as leaves;
ghost use Rattle.page_reader.specs.Trees.{done as nothing, leaf as tree_leaf, page_of, tree_of};
ghost use Rattle.page_reader.specs.Trees.{trees_of};
ghost use Rattle.unit_source.specs.InPlace.{broken, done, element, followed, is_open, leaf_placed};
ghost use Rattle.unit_source.specs.InPlace.{placed, trimmed, with_fault, with_stop};
ghost use Rattle.unit_source.specs.Placed.{head_of, in_place, node_in_place};
ghost use Rattle.unit_source.specs.ReadPlacing.{blanked, is_one_leaf};

use crate::placed::{PlacedElement, PlacedNode, element_node, include_node};
use crate::{Entry, WrittenDirective};
use page_pieces::{Attributes, Leaf};
use page_reader::{Closing, Element, Node, PageTree};
use pg_text::{PageFault, Place, Text};
use std::alloc::{AllocError, Global};

// The nodes of a file in place, before its include directives are read, the break of its reading
// among them.
pub(crate) fn file_nodes(
    alloc: Global,
    tree: PageTree,
    trim: bool,
) -> Result<Vec<PlacedNode>, AllocError>
    ensures { IfOk result (λ nodes. in_place nodes.items
        ≡ with_stop (page_of tree).stop (placed (trimmed trim (page_of tree).nodes))) }
{
    let nodes = placed_file(alloc, tree.nodes, trim)?;
    match tree.stop {
        Some(fault) => with_fault(alloc, fault, nodes),
        None => Ok(nodes),
    }
}

// The nodes of a file in place, without white space alone where that is trimmed, unless the file is
// one piece alone.
#[tactic(auto, using(crate::proofs::PlacingLemmas::trims))]
fn placed_file(alloc: Global, nodes: Vec<Node>, trim: bool) -> Result<Vec<PlacedNode>, AllocError>
    ensures { IfOk result (λ placed_nodes. in_place placed_nodes.items
        ≡ placed (trimmed trim (trees_of nodes.items))) }
{
    let trims = trim && !is_one_leaf(&nodes);
    placed_nodes(alloc, nodes, trims)
}

// Whether nodes are one that holds no others.
#[tactic(auto, using(crate::proofs::PlacingLemmas::one_leaf))]
fn is_one_leaf(nodes: &[Node]) -> bool
    ensures { result ≡ is_one_leaf (trees_of nodes.now) }
{
    match nodes.split_first() {
        Some((first, others)) => others.is_empty() && is_leaf(first),
        None => false,
    }
}

// Whether a node holds no others.
fn is_leaf(node: &Node) -> bool
    ensures { result ≡ is_one_leaf (tree_of node.now) }
{
    match node {
        Node::Element(_) => false,
        Node::Text { .. } => true,
        Node::Comment { .. } => true,
        Node::Expr { .. } => true,
        Node::Hash { .. } => true,
        Node::Directive { .. } => true,
    }
}

// Nodes in place, without text that is white space alone where `trims` says so.
#[cycle(placing)]
#[tactic(auto, using(crate::proofs::PlacingLemmas::one_placed))]
fn placed_nodes(alloc: Global, nodes: Vec<Node>, trims: bool) -> Result<Vec<PlacedNode>, AllocError>
    ensures { IfOk result (λ all. in_place all.items ≡ placed (blanked trims (trees_of nodes.items))) }
{
    let mut all = Vec::new(alloc);
    for node in nodes {
        place_node(alloc, node, trims, &mut all)?;
    }
    Ok(all)
}

// Adds a node in place.
#[cycle(placing)]
#[tactic(auto, using(crate::proofs::PlacingLemmas::leaf_blanked, crate::proofs::PlacingLemmas::element_blanked, crate::proofs::PlacedLemmas::element_placed))]
fn place_node(
    alloc: Global,
    node: Node,
    trims: bool,
    all: &mut Vec<PlacedNode>,
) -> Result<(), AllocError>
    ensures { OnOk result (in_place all.new.items ≡ followed (in_place all.old.items)
        (placed (blanked trims (tree_of node)))) }
{
    match node {
        Node::Text { text, place } => place_text(text, place, trims, all),
        Node::Comment { place } => add(all, PlacedNode::Leaf(Leaf::Comment, place)),
        Node::Expr { text, place } => add(all, PlacedNode::Leaf(Leaf::Expr(text), place)),
        Node::Hash { place } => add(all, PlacedNode::Leaf(Leaf::Hash, place)),
        Node::Directive {
            name,
            attributes,
            place,
        } => {
            let node = placed_directive(alloc, name, attributes, place)?;
            add(all, node)
        }
        Node::Element(element) => {
            let body = placed_nodes(alloc, element.body, trims)?;
            let head = Element {
                prefix: element.prefix,
                name: element.name,
                attributes: element.attributes,
                closing: element.closing,
                body: Vec::new(alloc),
                source: element.source,
                place: element.place,
            };
            add(all, element_node(head, body))
        }
    }
}

// Adds template text, but white space alone where that is trimmed.
#[tactic(auto, using(crate::proofs::PlacingLemmas::leaf_blanked, crate::proofs::PlacingLemmas::text_blanked, crate::proofs::PlacedLemmas::followed_done))]
fn place_text(
    text: Text,
    place: Place,
    trims: bool,
    all: &mut Vec<PlacedNode>,
) -> Result<(), AllocError>
    ensures { OnOk result (in_place all.new.items ≡ followed (in_place all.old.items)
        (placed (blanked trims (tree_leaf (leaves.Text text) place nothing)))) }
{
    if trims && is_blank(text.as_str()) {
        return Ok(());
    }
    add(all, PlacedNode::Leaf(Leaf::Text(text), place))
}

// Whether a text is white space alone.
fn is_blank(text: &str) -> bool
    ensures { result ≡ list_all is_white text.now }
{
    text.as_bytes().iter().all(|b| is_white(*b))
}

fn is_white(b: u8) -> bool
    ensures { result ≡ is_white b }
{
    b == b' ' || b == b'\t' || b == b'\r' || b == b'\n'
}

// A directive in place, before it is read.
fn placed_directive(
    alloc: Global,
    name: Text,
    attributes: Attributes,
    place: Place,
) -> Result<PlacedNode, AllocError>
    ensures { IfOk result (λ node. node_in_place node ≡ leaf_placed (leaves.Directive name attributes) place done) }
{
    if name.as_str() != "include" {
        return Ok(PlacedNode::Leaf(Leaf::Directive(name, attributes), place));
    }
    let directive = WrittenDirective::new(alloc, name, attributes, place)?;
    Ok(include_node(directive, Entry::Unnamed, Vec::new(alloc)))
}

// Adds a node at the end.
#[tactic(auto, using(crate::proofs::PlacedLemmas::in_place_push))]
pub(crate) fn add(nodes: &mut Vec<PlacedNode>, node: PlacedNode) -> Result<(), AllocError>
    ensures { OnOk result (in_place nodes.new.items ≡ followed (in_place nodes.old.items) (node_in_place node)) }
{
    nodes.push(node)?;
    Ok(())
}

// Puts the fault at which the reading of a file broke off among the nodes of that file.
#[cycle(breaking)]
#[tactic(auto, using(crate::proofs::PlacingLemmas::fault_last, crate::proofs::PlacedLemmas::in_place_push))]
fn with_fault(
    alloc: Global,
    fault: PageFault,
    nodes: Vec<PlacedNode>,
) -> Result<Vec<PlacedNode>, AllocError>
    ensures { IfOk result (λ broken. in_place broken.items ≡ with_fault fault (in_place nodes.items)) }
{
    let mut front = nodes;
    match front.pop() {
        Some(last) => break_last(alloc, fault, last, front),
        None => {
            add(&mut front, PlacedNode::Broken(fault))?;
            Ok(front)
        }
    }
}

// Adds the last node of a file, and the break before it, in it or behind it.
#[cycle(breaking)]
#[tactic(auto, using(crate::proofs::PlacedLemmas::followed_assoc, crate::proofs::PlacedLemmas::element_placed, crate::proofs::PlacedLemmas::include_placed))]
fn break_last(
    alloc: Global,
    fault: PageFault,
    last: PlacedNode,
    front: Vec<PlacedNode>,
) -> Result<Vec<PlacedNode>, AllocError>
    ensures { IfOk result (λ nodes. in_place nodes.items
        ≡ followed (in_place front.items) (with_fault fault (node_in_place last))) }
{
    match last {
        PlacedNode::Element(element) => break_at(alloc, fault, element, front),
        PlacedNode::Leaf(kind, place) => {
            break_behind(front, PlacedNode::Leaf(kind, place), fault)
        }
        PlacedNode::Broken(other) => break_behind(front, PlacedNode::Broken(other), fault),
        PlacedNode::Included(include) => {
            break_behind(front, PlacedNode::Included(include), fault)
        }
    }
}

// Adds a node, and the break behind it.
fn break_behind(
    front: Vec<PlacedNode>,
    node: PlacedNode,
    fault: PageFault,
) -> Result<Vec<PlacedNode>, AllocError>
    ensures { IfOk result (λ nodes. in_place nodes.items
        ≡ followed (followed (in_place front.items) (node_in_place node)) (broken fault done)) }
{
    let mut nodes = front;
    add(&mut nodes, node)?;
    add(&mut nodes, PlacedNode::Broken(fault))?;
    Ok(nodes)
}

// The same where the last node is an element.
#[cycle(breaking)]
#[tactic(auto, using(crate::proofs::PlacedLemmas::followed_assoc, crate::proofs::PlacedLemmas::element_placed))]
fn break_at(
    alloc: Global,
    fault: PageFault,
    last: PlacedElement,
    front: Vec<PlacedNode>,
) -> Result<Vec<PlacedNode>, AllocError>
    ensures { IfOk result (λ broken. in_place broken.items
        ≡ followed (in_place front.items) (with_fault fault
        (element (head_of last.head) (in_place last.body.items) done))) }
{
    if !is_open(last.head.closing) {
        return break_behind(front, PlacedNode::Element(last), fault);
    }
    let mut nodes = front;
    if last.head.place.byte == fault.place.byte {
        add(&mut nodes, PlacedNode::Broken(fault))?;
        add(&mut nodes, PlacedNode::Element(last))?;
        return Ok(nodes);
    }
    let body = with_fault(alloc, fault, last.body)?;
    add(&mut nodes, element_node(last.head, body))?;
    Ok(nodes)
}

// Whether the end of an element wasn't read.
fn is_open(closing: Closing) -> bool
    ensures { result ≡ is_open closing }
{
    match closing {
        Closing::Open => true,
        _ => false,
    }
}
