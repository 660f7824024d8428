//! What a page's run has looked for where it ends by a forward.
#![tactic(auto)]

mod laws;

pub use laws::targets;
