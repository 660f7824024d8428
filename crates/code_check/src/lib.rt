//! The check of a code, which tells once and for all that it can be run.
#![tactic(auto)]

mod calls;
mod cells;
mod checked;
mod instructions;
mod open;
mod whole;

pub use checked::CheckedCode;
pub use whole::check;
