//! What a page means: a definition apart from all code, and its laws.
#![tactic(auto)]

mod laws;
mod limits;

pub use laws::{depth, parts, requests};
pub use limits::{CHARGE_LIMIT, LEVEL_LIMIT, VISIT_LIMIT};
