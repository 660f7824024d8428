//! The pages of a tree: each is read, translated and run in one call, which does what the page
//! means.
#![tactic(auto)]

mod making;
mod running;
mod tree_page;

pub use making::make;
pub use running::{TreeEnd, run_at};
pub use tree_page::TreePage;
