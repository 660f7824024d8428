//! The names of contexts, the context to which a target belongs, and a list of ports in the order
//! of the names.
#![tactic(auto)]

mod limits;
mod names;
mod ports;
mod reading;
mod targets;
mod telling;

pub use limits::{MAX_CONTEXT_NAME_BYTES, MAX_CONTEXTS};
pub use names::{ContextNames, read_names};
pub use ports::PortList;
pub use telling::tells_names;
