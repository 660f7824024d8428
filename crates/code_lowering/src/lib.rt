//! The form of every kind of node, and that a page's program means the page.
#![tactic(auto)]

mod laws;

pub use laws::programs;
