use crate::attribute::Attributes;
use crate::spot::Spot;
use pg_text::{Text, TranslationFault};

/// A piece that holds no others.
#[derive(Drop)]
pub enum Leaf {
    Text(Text),
    Comment,
    /// `${text}`.
    Expr(Text),
    /// A `#{` that is no text: E16.
    Hash,
    /// The name of a directive, and its attributes.
    Directive(Text, Attributes),
}

/// The start of an element.
#[derive(Drop)]
pub struct Tag {
    pub prefix: Text,
    pub name: Text,
    pub attributes: Attributes,
}

/// A piece of a page.
#[derive(Drop)]
pub enum Piece {
    Leaf(Leaf),
    Start(Tag),
    /// The start of an element without a body.
    Empty(Tag),
    /// The end of an element with this prefix and this name.
    End(Text, Text),
}

/// Why no piece stands at a place.
#[derive(Clone, Copy)]
pub enum Break {
    /// A fault and its place.
    Fault(TranslationFault, Spot),
    /// An end begins here and is not whole and right. Where `could_end` says that the file's end
    /// cuts it off, its element is unclosed; else it is a wrong end.
    BadEnd(Spot),
}
