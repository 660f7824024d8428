//! The page that a unit is, as its meaning reads it.
#![tactic(auto)]

mod laws;

pub use laws::{bodies, worked};
