//! The entries of a journal, done again one by one on the site that has its opening.
#![tactic(auto)]

mod again;
mod bases;
mod entry;
mod making;

pub use again::{Again, do_again};
