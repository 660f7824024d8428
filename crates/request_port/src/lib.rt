//! What a running page asks of its request, over the port of a connection.
#![tactic(auto)]

mod finding;
mod port;
mod telling;

pub use port::RequestPort;
