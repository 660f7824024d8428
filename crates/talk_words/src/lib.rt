//! What is said on a connection to a site: what each request is answered and what it leaves, and
//! the laws of whole connections.
#![tactic(auto)]

mod laws;
mod role;
mod way;

pub use laws::{each_once, exact_refusals, exact_work, one_history, told_again, versions};
pub use role::Role;
pub use way::{Way, way_for};
