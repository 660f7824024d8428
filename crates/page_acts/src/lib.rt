//! A page as its meaning reads it: each action as one act, with the attributes that it names read
//! once. Acts borrow the unit that they come from.
#![tactic(auto)]

mod acts;
mod addressing;
mod enclosing;
mod named;

pub use acts::{Act, ActAttribute, ActBranch, ActParam, CallBody};
pub use addressing::Addressing;
pub use enclosing::Enclosing;
pub use named::{Property, Variable};
