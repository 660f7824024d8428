//! The edge of a server over TCP: what binds listeners to ports of this machine, and the two ways
//! of a connection.
//!
//! What reaches or leaves a socket is outside what is proved, and so is how long anything takes. A
//! connection ends with a fault that is counted if its peer keeps it waiting:
//!
//! - 5 seconds for the first byte of a reader's request,
//! - 60 seconds for the first byte of an editor's message, or 5 while another editor waits or the
//!   round waits for the editor to go,
//! - 20 seconds for more of a request that has begun, 20 seconds in all for its head, and after
//!   that as long as the bytes that came last at 500 a second, and 20 seconds more,
//! - 20 seconds until the peer takes more of an answer.
//!
//! Listeners may have rounds. A round's number is reached once the readers' listener has taken as
//! many connections as its round has, or as many of editors have ended. The round is over for both
//! as soon as its number is reached and no editor is connected; until then readers are served as
//! before. An editor is ended between two messages 60 seconds after the number was reached, or 5
//! after twice the number was. Readers who are connected when the round is over are served to the
//! end of their request, and new ones wait for the next round; who waits in a listener is woken by
//! a connection that says nothing.
//!
//! A whole answer goes out at once, and so does each chunk. A socket is closed for writing first,
//! and what the peer still sends is dropped for up to a second, so that an answer that refuses a
//! request reaches a peer that is still sending it.
#![tactic(auto)]

mod accept;
mod bind;
mod door;
mod editor;
mod link;
mod round;
mod sink;
mod source;
mod wait;

pub use accept::{RoundOver, TcpAccept};
pub use bind::TcpBind;
pub use sink::TcpSink;
pub use source::TcpSource;
