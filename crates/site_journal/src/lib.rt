//! The journal of a site as bytes: what the site was at first, each entry of its history, and the
//! talk that made it where one connection did. No journal is a proper prefix of another, so
//! journals may stand one behind the other.
#![tactic(auto)]

mod entries;
mod journal;
mod laws;
mod opening;
mod talk;
mod values;
mod writing;

pub use journal::write_journal;
pub use laws::one_reading;
pub use talk::{Moments, Talk};
