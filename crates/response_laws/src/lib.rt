//! Laws of what a request is answered: how chains of forwards unfold, and that answers only add to
//! what was asked and committed.
#![tactic(auto)]

mod laws;

pub use laws::responses;
