//! The stage of a page run: the world that is made of the scopes, the writer, what is kept across
//! page runs, and the port to the site.
#![tactic(auto)]

mod charges;
mod limits;
mod stage;

pub use limits::{MAX_ASKED_CHARGE, MAX_CHARGE, RUN_PROMISE, SESSION_RUN_PROMISE};
pub use stage::Stage;
