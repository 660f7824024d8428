//! Input that is read whole, up to a limit.
#![tactic(auto)]

mod reading;

pub use reading::read_up_to;
