//! A connection to several contexts: each request is answered by the site of its context, and each
//! context has a draft of its own on each connection.
#![tactic(auto)]

mod command;
mod connection;
mod desk;
mod first_sites;
mod words;

pub use command::play_contexts;
pub use connection::talk_contexts;
pub use context_words::{histories, shares};
