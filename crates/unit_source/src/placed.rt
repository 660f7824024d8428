ghost use Rattle.std.specs.Prelude.{◌≡◌};
ghost use Rattle.unit_source.specs.InPlace.{done, element, included};
ghost use Rattle.unit_source.specs.Placed.{head_of, in_place, node_in_place};

use crate::{Entry, WrittenDirective};
use page_pieces::Leaf;
use page_reader::Element;
use pg_text::{PageFault, Place};

/// A node of a page or a tag file, with its static includes in place.
#[derive(Drop)]
#[cycle(placed)]
pub enum PlacedNode {
    Leaf(Leaf, Place),
    Element(PlacedElement),
    /// The reading of a file breaks off: the fault stands here in reading order.
    Broken(PageFault),
    Included(PlacedInclude),
}

/// An element: its head, which has no nodes of its own, and its body.
#[derive(Drop)]
#[cycle(placed)]
pub struct PlacedElement {
    pub head: Element,
    pub body: Vec<PlacedNode>,
}

/// An include directive, and the nodes of its file where that is read.
#[derive(Drop)]
#[cycle(placed)]
pub struct PlacedInclude {
    pub directive: WrittenDirective,
    pub entry: Entry,
    pub body: Vec<PlacedNode>,
}

// An element as a node.
pub(crate) fn element_node(head: Element, body: Vec<PlacedNode>) -> PlacedNode
    ensures { node_in_place result ≡ element (head_of head) (in_place body.items) done }
{
    PlacedNode::Element(PlacedElement { head, body })
}

// An include directive as a node.
pub(crate) fn include_node(
    directive: WrittenDirective,
    entry: Entry,
    body: Vec<PlacedNode>,
) -> PlacedNode
    ensures { node_in_place result ≡ included directive entry (in_place body.items) done }
{
    PlacedNode::Included(PlacedInclude {
        directive,
        entry,
        body,
    })
}
