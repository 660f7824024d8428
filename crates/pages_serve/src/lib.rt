//! The command `serve`: a site, or a site for each of several names, that many connections read
//! while one at a time edits.
//!
//! Each connection is answered by `talk` over the port of a pass, or by `talk_contexts` over a port
//! to each site, so what is promised of a connection holds of each.
#![tactic(auto)]

mod command;
mod context_endpoints;
mod context_pages;
mod next_round;
mod notice;
mod pages;
mod pages_round;
mod platform;
mod several;
mod talks;
mod threads;
mod unmarked;

pub use command::serve;
pub use next_round::onward;
pub use pages::{Audience, Pages};
pub use pages_round::serve_round;
pub use platform::Platform;
pub use talks::talks_of;
