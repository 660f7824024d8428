//! What is said on a connection to several contexts, and the laws that each context has its share
//! and its history of its own.
#![tactic(auto)]

mod laws;

pub use laws::{histories, shares};
