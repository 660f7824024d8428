//! A connection to a site: its requests are answered one after the other, over any port.
#![tactic(auto)]

mod command;
mod connection;
mod desk;
mod editing;
mod starting;
mod words;

pub use command::play;
pub use connection::talk;
pub use conversation::Ended;
pub use desk::PortDesk;
pub use dispatch::{refusal_line, respond};
pub use editing::tell_editor;
pub use starting::start_alone;
pub use talk_words::{
    Role, each_once, exact_refusals, exact_work, one_history, told_again, versions,
};
pub use words::seed_of;
