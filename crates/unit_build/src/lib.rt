//! The unit of a page: the page with its includes in place, its settings, its tag files and its
//! beans, or the first of its faults in reading order; and the files on which it depends.
#![tactic(auto)]

mod building;
mod calling;
mod course;
mod decided;
mod found;
mod include;
mod leaf;
mod nodes;
mod page;
mod site;
mod start;
mod steps;
mod tag;
mod walk;

pub use building::build;
