//! The command `check`: whether a page that stands alone is right, or its first fault.
#![tactic(auto)]

mod checked;
mod command;
mod page;

pub use command::check;
