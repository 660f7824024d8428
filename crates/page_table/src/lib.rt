//! What each instruction of a page's code does, what a run of a code is, and the laws of runs.
#![tactic(auto)]

mod laws;

pub use laws::{checked, rows, runs};
