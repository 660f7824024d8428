//! The line that tells a fault of a page.
#![tactic(auto)]

mod line;

pub use line::page_fault_line;
