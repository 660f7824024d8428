//! The workers of several sites that are shared: each has a port to every one of them, over a pass
//! of its own.
#![tactic(auto)]

mod shared;
mod taking;
mod workers;

pub use shared::{SharedSites, share};
pub use workers::{Worker, seat};
