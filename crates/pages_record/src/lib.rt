//! The command `record`: connections to one site, each written as a journal that anybody can check.
//!
//! Each connection is talked with in memory. Then the site is rolled over: its journal goes out
//! with that talk, and the next connection comes to the site that goes on from it.
#![tactic(auto)]

mod command;
mod connection;
mod lent_clock;
mod recorded;
mod recording;
mod words;

pub use command::play_record;
pub use recorded::Recorded;
