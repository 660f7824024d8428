//! Pages of a site as they are served: what is told of a tree's paths stands there, and the run of
//! a page's program does what the page means.
#![tactic(auto)]

mod laws;
mod running;

pub use laws::served;
pub use page_machine::{AskedPage, RunEnd};
pub use running::run_program;
