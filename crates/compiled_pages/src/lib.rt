//! What is kept for a path of a site: the page there as its program, or the page's fault, with what
//! it needs of the site's files.
#![tactic(auto)]

mod made;

pub use made::{Made, MadeBody};
