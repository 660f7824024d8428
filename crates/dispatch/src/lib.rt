//! The response of a request over a port to a site.
#![tactic(auto)]

mod beginning;
mod refusing;
mod replying;
mod responding;
mod serving;
mod under_way;

pub use refusing::refusal_line;
pub use responding::respond;
