//! What is answered in a context is determined by its own share: a law.
#![tactic(auto)]

mod laws;

pub use laws::one_share;
