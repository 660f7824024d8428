//! Rollover: a site at rest gives its journal away and goes on as a new one.
#![tactic(auto)]

mod rolling;

pub use rolling::{Rolled, roll};
