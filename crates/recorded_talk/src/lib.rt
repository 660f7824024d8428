//! The talk of a journal, done again: one connection in memory, on the site that has the journal's
//! opening.
#![tactic(auto)]

mod comparing;
mod talking;
mod waiting;

pub use talking::is_right;
