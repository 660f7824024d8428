//! The command `load`: a generated site is talked with in memory, and five numbers of that are
//! told.
#![tactic(auto)]

mod command;
mod counting;
mod report;
mod running;

pub use command::load;
