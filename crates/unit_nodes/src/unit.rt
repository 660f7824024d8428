use crate::JspName;
use el_reader::El;
use jstl_tags::CoreName;
use pg_text::{Listed, PageFault, Path, Place, Text};
use pg_value::{Attrs, PageSettings};
use source_tree::Stamps;
use tag_decl::TagDecl;

/// What an action is: a standard action, a core tag, or the call of the tag file at a path.
#[derive(Drop)]
pub enum ActionKind {
    Jsp(JspName),
    Core(CoreName),
    Tag(Path),
}

/// A part of the value of an attribute.
#[derive(Drop)]
pub enum UnitPart {
    Text(Text),
    Expr(El),
}

/// The parts of a value in order.
pub type UnitParts = Listed<UnitPart>;

/// An attribute. Its place is the first byte of its value.
#[derive(Drop)]
pub struct UnitAttribute {
    pub name: Text,
    pub parts: UnitParts,
    pub place: Place,
}

/// Attributes in the order written.
pub type UnitAttributes = Listed<UnitAttribute>;

/// A node of a page, its static includes in place.
#[derive(Drop)]
#[cycle(nodes)]
pub enum UnitNode {
    Text { text: Text, place: Place },
    Expr { el: El, place: Place },
    Action(Action),
}

/// An action. `source` is its body as written; `has_body` says whether it has one.
#[derive(Drop)]
#[cycle(nodes)]
pub struct Action {
    pub kind: ActionKind,
    pub attributes: UnitAttributes,
    pub has_body: bool,
    pub body: Vec<UnitNode>,
    pub source: Text,
    pub place: Place,
}

/// A tag file.
#[derive(Drop)]
pub struct TagFile {
    pub path: Path,
    pub decl: TagDecl,
    pub settings: PageSettings,
    pub nodes: Vec<UnitNode>,
}

/// A page with the tag files and the beans that it uses.
#[derive(Drop)]
pub struct Page {
    pub path: Path,
    pub nodes: Vec<UnitNode>,
    pub settings: PageSettings,
    /// In the order of their first calls.
    pub tags: Vec<TagFile>,
    /// The record of each class.
    pub beans: Attrs,
}

/// A page without a fault, or the first fault that reading it meets.
#[derive(Drop)]
pub enum UnitBody {
    Good(Page),
    Bad(PageFault),
}

/// The unit of a page: the page or its fault, and the names of the files on which that depends,
/// absent ones too, each with its stamp.
#[derive(Drop)]
pub struct Unit {
    pub deps: Stamps,
    pub body: UnitBody,
}
