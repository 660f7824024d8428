//! The machine that runs the code of pages.
#![tactic(auto)]

mod asked_page;
mod calls;
mod found;
mod pages;
mod running;
mod targets;
mod turn;

pub use asked_page::AskedPage;
pub use running::{RunEnd, run};
