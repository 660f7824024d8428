//! What a pass did of a history, by what it has seen, and the request that it has under way.
#![tactic(auto)]

mod laws;

pub use laws::{courses, requests};
