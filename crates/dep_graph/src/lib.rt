//! Which paths need which names, in both directions.
#![tactic(auto)]

mod deps;
mod entries;
mod index;

pub use deps::Deps;
pub use entries::Dependent;
