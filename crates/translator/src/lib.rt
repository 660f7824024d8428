//! The translation of units: a page as its program, or its fault.
#![tactic(auto)]

mod declarations;
mod making;
mod translating;

pub use translating::translate;
