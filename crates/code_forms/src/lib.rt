//! The forms of which the code of every kind of node is made: of each form its code, from the codes
//! of its parts.
//!
//! A form takes values from the stack and leaves others in their place. Its code is told with what
//! stands open below these, its ground, and has no place of its own: codes are joined one behind
//! the other.
#![tactic(auto)]

mod arranging;
mod calling;
mod cells;
mod choosing;
mod enclosing;
mod joining;

pub use arranging::{arranged, swapped};
pub use calling::{Handed, ended, tag_call};
pub use cells::{call, leave, operation};
pub use choosing::{chosen, where_null};
pub use enclosing::{caught, ensured, kept, looped};
pub use joining::joined;
