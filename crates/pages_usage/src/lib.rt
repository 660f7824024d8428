//! How the commands of the program are called, as `clap` renders it. The words themselves are read
//! by hand.
#![tactic(auto)]

mod commands;
#[cfg(test)]
mod tests;

pub use commands::{help, usage};
