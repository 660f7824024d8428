//! The code of expressions, and of the values of attributes: each call gives the code of a form of
//! `code_lowering`.
//!
//! A code is joined from the codes of parts, each of which was made over its own ground, which is
//! what stands open below the values that it takes. A name with more bytes than `Name` takes, which
//! no page has room for, is answered as if memory ran out (`AllocError`).
#![tactic(auto)]

mod calls;
mod names;
mod operators;
mod single;
mod tree;
mod values;
mod written;

pub use single::{coercion, constant, visits};
pub use tree::{expression, first_visits, value};
pub use values::{Evaluation, coerced, kept};
pub use written::parts;
