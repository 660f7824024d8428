//! The reader of pages: from the text of a file to its tree, each node with its place, and to the
//! fault that breaks the reading off.
#![tactic(auto)]

mod level;
mod node;
mod reader;
mod run;
mod stack;
mod stop;
mod tree;

pub use node::{Closing, Element, Node, PageTree};
pub use page_pieces::{
    Attribute, Attributes, Brought, BroughtPrefixes, Leaf, Part, Parts, Prefixes, Setting, Tag,
};
pub use pg_text::{PageFault, Path, Place, Text, TranslationFault};
pub use reader::{one_page, read_page, read_under};
