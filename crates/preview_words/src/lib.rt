//! What is said on a preview connection: what each request is answered and what it leaves.
//! Definitions, and what follows from them.
#![tactic(auto)]

mod laws;

pub use laws::{own_sites, pictures};
