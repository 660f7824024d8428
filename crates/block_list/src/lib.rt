//! A list in blocks: it grows by whole blocks, so that no item ever moves.
#![tactic(auto)]

mod items;
mod list;

pub use items::Items;
pub use list::{BLOCK, BlockList};
