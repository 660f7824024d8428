//! Several contexts, each with a site of its own.
#![tactic(auto)]

mod laws;
mod limits;
mod sites;

pub use context_names::{ContextNames, PortList, read_names};
pub use laws::{apart, two_worlds};
pub use limits::CONTEXT_JOURNAL_LIMIT;
pub use sites::{Contexts, start};
