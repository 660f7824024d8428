//! Journals and their parts, each read from a source: exactly the one that stands next, or that
//! none does.
#![tactic(auto)]

mod acts;
mod application;
mod edits;
mod entry;
mod frame;
mod frames;
mod head;
mod history;
mod journal;
mod lists;
mod mark;
mod numbers;
mod opening;
mod part;
mod rising;
mod talk;
mod texts;
mod tree;
mod unread;
mod values;

pub use history::Entries;
pub use journal::{Journal, next_journal};
pub use part::Part;
pub use unread::Unread;
