//! Whether words of a site are equal: openings, entries of a history, replies, and what they are
//! made of.
#![tactic(auto)]

mod attributes;
mod entries;
mod histories;
mod lists;
mod openings;
mod read;
mod same;

pub use histories::same_entries;
pub use same::Same;
