//! The journals that are recorded, one connection behind the other, are right.
#![tactic(auto)]

mod laws;

pub use laws::records_are_right;
