//! A site that many passes share: each acts in its turn, in one history.
//!
//! [`start`] makes a [`SharedSite`] of a site, and a pass for each number of its opening. A
//! [`SharedPort`] owns a pass, and is the port of one connection: each call passes the gate with
//! the number of the pass, waits for its turn and acts. A request whose session is held sleeps
//! until the request that holds it has ended, and asks again. [`into_pass`] gives the pass back,
//! and [`SharedSite::close`] the site, once all passes are there.
//!
//! No clause says that a turn comes, or when a session is free, nor how often the gate is passed.
#![tactic(auto)]

mod busy;
mod ends;
mod seated;
mod shared;
mod turn;

pub use seated::{Seated, SitePass, SitePasses};
pub use shared::{SharedSite, start};
pub use turn::{SharedPort, Turn, into_pass};
