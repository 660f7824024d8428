//! The values that a site keeps ready for its paths.
//!
//! What is kept for a path is found again as long as all that it needs stands so in the asking
//! tree. A publishing takes out what needs a name that it changed; which paths these are is looked
//! up by the name.
#![tactic(auto)]

mod fit;
mod needs;
mod shelf;
mod store;

pub use fit::fits;
pub use shelf::Shelf;
pub use store::Store;
