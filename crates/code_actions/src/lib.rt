//! The code of each kind of action behind the values of its attributes, from the codes of its
//! parts: a body, params, branches, and what a call hands down. Each part's own code was made over
//! its own ground, which is what stands open below the values that it takes.
#![tactic(auto)]

mod addressing;
mod arranging;
mod beans;
mod bodies;
mod calls;
mod choices;
mod choosing;
mod enclosing;
mod evaluations;
mod loops;
mod names;
mod outputs;
mod parting;
mod tags;
mod variables;

pub use addressing::{Params, addressing_code, addressing_evaluations};
pub use beans::{SetProperty, UseBean, get_property, set_property, use_bean};
pub use bodies::{param, param_ground};
pub use calls::{do_body, invoke};
pub use choices::catch;
pub use choosing::{TestedBranch, choice, when};
pub use enclosing::{enclosing_code, enclosing_evaluations, enclosing_ground};
pub use evaluations::Evaluations;
pub use outputs::{shown, template};
pub use tags::call_tag;
pub use variables::remove;
