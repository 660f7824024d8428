//! Several contexts on one connection, each with a desk of its own.
//!
//! A [`ContextDesk`] has the request of each context answered by that context's [`Tenant`], over
//! its port, without the context's name in the request's target. A conversation is shared: each
//! context walks alone over its own exchanges.
#![tactic(auto)]

mod desk;
mod inside;
mod nowhere;
mod tenant;

pub use desk::ContextDesk;
pub use tenant::Tenant;
