//! The pages that run for a request, one after the other, and what they answer.
#![tactic(auto)]

mod answering;
mod begun;
mod body;
mod chain;
mod delivery;
mod erring;
mod incoming;
mod instead;
mod looking;
mod reply;
mod request_state;
mod running;
mod telling;

pub use answering::answer;
pub use body::Body;
pub use incoming::Incoming;
pub use reply::{PageEnd, Reply};
pub use request_port::RequestPort;
pub use request_state::{RequestState, new_id};
