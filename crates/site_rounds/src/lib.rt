//! A site that is served in rounds: each pass of it in a thread that takes connections, and the
//! site back once a round is over.
//!
//! How a connection is answered is told by a [`Talk`], over the port of a pass. No clause says that
//! a connection is answered, nor how many are at once.
#![tactic(auto)]

mod by_audience;
mod endpoints;
mod handler;
mod rounds;
mod service;
mod talk;

pub use handler::PortHandler;
pub use rounds::{Listeners, Talks, Worker, round};
pub use service::Service;
pub use talk::Talk;
