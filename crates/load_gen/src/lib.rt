//! The messages of a generated site, on which a site's work is measured: pages that share parts are
//! published, and each part is then changed and its pages asked for.
#![tactic(auto)]

mod generated;
mod law;
mod message;
mod naming;

pub use generated::{MAX_PAGES, make};
pub use law::counted;
pub use message::Message;
