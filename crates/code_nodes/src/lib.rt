//! The code of a page: of its nodes in their order, and of those of its tag files, exactly the code
//! of their forms.
#![tactic(auto)]

mod actions;
mod attributes;
mod calls;
mod choices;
mod names;
mod params;
mod position;
mod tree;

pub use tree::nodes;
