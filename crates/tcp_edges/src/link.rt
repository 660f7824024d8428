ghost use Rattle.std.specs.Io.{ReadsAtMost};

use std::alloc::Global;
use std::io;
use std::io::{ErrorKind, Read};
use std::net::TcpStream;
use std::sync::Arc;
use std::sync::atomic::AtomicU64;

/// The most times in a row that a call is made anew which a signal interrupted.
pub(crate) const MOST_INTERRUPTIONS: u32 = 1_000;

/// A socket that both ways of a connection share.
#[derive(Drop)]
pub(crate) struct Link {
    pub(crate) stream: TcpStream,

    /// How many pieces were written to the peer. Where there are more than before, an answer has
    /// begun or goes on.
    pub(crate) pieces: AtomicU64,
}

/// A socket, for both ways.
pub(crate) type Shared = Arc<Link, Global>;

/// Whether a signal interrupted the call.
pub(crate) fn is_interruption<T>(answer: &io::Result<T>) -> bool {
    match answer {
        Ok(_) => false,
        Err(error) => error.kind() == ErrorKind::Interrupted,
    }
}

/// What comes next, if it comes in the time that the socket waits.
pub(crate) fn received(mut stream: &TcpStream, into: &mut [u8]) -> io::Result<usize>
    ensures { ReadsAtMost result into.new }
{
    for _ in 0..MOST_INTERRUPTIONS {
        let result = stream.read(into);
        if !is_interruption(&result) {
            return result;
        }
    }
    Err(io::Error::from(ErrorKind::Interrupted))
}
