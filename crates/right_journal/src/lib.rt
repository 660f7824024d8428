//! Right journals, and what is said of bytes that are journals.
#![tactic(auto)]

mod laws;

pub use laws::one_verdict;
