//! The unit of a page as it is defined: what an element is, what reading meets and counts, and what
//! the unit comes to; and the laws of that.
#![tactic(auto)]

mod counts;
mod laws;

pub use counts::{Counted, Counts};
pub use laws::unit_laws;
