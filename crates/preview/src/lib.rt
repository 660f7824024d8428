//! Previews: a page is shown as it would be with the draft of a connection, on a site of its own
//! that is made of a picture of the live one, and nothing of it is seen elsewhere.
#![tactic(auto)]

mod asking;
mod command;
mod connection;
mod desk;
mod editing;
mod incoming;
mod own;
mod showing;
mod telling;

pub use command::preview_play;
pub use connection::preview;
