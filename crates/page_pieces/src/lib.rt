//! The pieces of a page: the comment, directive, text, expression, start or end of an element that
//! stands at a place of a file, or why none stands there.
#![tactic(auto)]

mod attribute;
mod attribute_reader;
mod brought;
mod end_reader;
mod escape;
mod expression;
mod firsts;
mod head;
mod head_reader;
mod mark;
mod misread;
mod name_list;
mod name_run;
mod name_set;
mod names;
mod piece;
mod piece_reader;
mod quote;
mod setting;
mod spot;
mod tag_reader;
mod template;
mod texts;
mod unescaped;
mod value;
mod value_mark;

pub use attribute::{Attribute, Attributes, Part, Parts, has_name, plain_text, value_of};
pub use brought::Brought;
pub use end_reader::could_end;
pub use name_list::NameList;
pub use names::{TagName, behind_white, tag_name};
pub use piece::{Break, Leaf, Piece, Tag};
pub use piece_reader::read_piece;
pub use setting::{BroughtPrefixes, Prefixes, Setting};
pub use spot::Spot;
pub use texts::{after, begins};
