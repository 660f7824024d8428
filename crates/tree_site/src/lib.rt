//! A port to a site of the files of a tree: its pages are read and translated when they are asked
//! for, and its answers are listed beforehand.
#![tactic(auto)]

mod asked;
mod making;
mod prepared;
mod site;

pub use asked::Asked;
pub use making::paged;
pub use prepared::Prepared;
pub use site::TreeSite;
