//! The conversation on a connection: its requests are read and answered one after the other, by
//! whatever answers them.
//!
//! A [`Desk`] answers one request, and writes the response itself. [`walk`] reads the requests, has
//! each answered before it reads the next, and answers a fault of the bytes. Each way to end speaks
//! of the bytes that came.
#![tactic(auto)]

mod desk;
mod ended;
mod limits;
mod methods;
mod refusing;
mod telling;
mod walking;

pub use desk::{Desk, Outcome};
pub use ended::Ended;
pub use limits::MAX_REQUESTS;
pub use methods::{shows_body, takes_method};
pub use telling::tell;
pub use walking::walk;
