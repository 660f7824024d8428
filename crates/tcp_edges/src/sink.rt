ghost use Rattle.std.specs.Prelude.{◌≡◌, ◌<◌, length, IfOk};
ghost use Rattle.std.specs.Io.{WritesAtMost};

use crate::link::{MOST_INTERRUPTIONS, Shared, is_interruption};
use edges::{Failed, Sink};
use std::alloc::Global;
use std::io;
use std::io::{ErrorKind, Write};
use std::net::TcpStream;
use std::sync::atomic::Ordering;

/// The most bytes of a chunk that are kept until its end comes.
const MOST_HELD: usize = 65_536;

/// What goes to the peer of a connection. The first line of a chunk is held until the chunk is
/// whole, so that it goes out in one piece; where a call fails, what it held is lost with the
/// connection.
#[derive(Drop)]
pub struct TcpSink {
    link: Shared,
    held: Vec<u8>,

    /// Whether the socket took a part alone of what came last. Then what comes next is the rest of
    /// it.
    in_part: bool,
    faults: u64,
}

impl TcpSink {
    /// The way to the peer of this connection.
    pub(crate) fn new(alloc: Global, link: Shared) -> Self {
        TcpSink {
            link,
            held: Vec::new(alloc),
            in_part: false,
            faults: 0,
        }
    }

    // Sends at least the first byte, or holds all, and says how many bytes it took.
    fn take(&mut self, from: &[u8]) -> io::Result<usize>
        ensures bound { WritesAtMost result from.now }
        ensures faults { self.new.faults ≡ self.old.faults }
    {
        let is_held = !self.held.is_empty() || !self.in_part && is_first_line(from);
        if !is_held {
            let count = sent(&self.link.stream, from)?;
            self.in_part = count < from.len();
            return Ok(count);
        }
        if self.held.extend_from_slice(from).is_err() {
            self.let_go()?;
            return sent(&self.link.stream, from);
        }
        if from == b"\r\n".as_slice() || self.held.len() > MOST_HELD {
            self.let_go()?;
        }
        Ok(from.len())
    }

    // Sends what it held.
    fn let_go(&mut self) -> io::Result<()>
        ensures { self.new.faults ≡ self.old.faults }
    {
        let mut done = 0;
        for _ in 0..self.held.len() {
            if done >= self.held.len() {
                break;
            }
            let count = sent(&self.link.stream, &self.held[done..])?;
            if count == 0 {
                return Err(io::Error::from(ErrorKind::WriteZero));
            }
            done += count;
        }
        self.held.clear();
        Ok(())
    }
}

impl Sink for TcpSink {
    ghost use Rattle.std.specs.Prelude.{None};

    ghost taken = { λ s. None };

    ghost faults = { λ s. s.faults };

    fn write(&mut self, from: &[u8]) -> Result<usize, Failed> {
        self.link.pieces.fetch_add(1, Ordering::SeqCst);
        match self.take(from) {
            Ok(count) if count > 0 || from.is_empty() => Ok(count),
            _ => {
                self.faults = self.faults.saturating_add(1);
                Err(Failed)
            }
        }
    }
}

// Whether this is the first line of a chunk: its size, and no text behind it.
fn is_first_line(from: &[u8]) -> bool {
    from.len() <= 18
        && from.ends_with(b"\r\n")
        && match from.first() {
            Some(digit) => digit.is_ascii_hexdigit() && *digit != b'0',
            None => false,
        }
}

// Sends the first bytes, as many as the socket takes at once.
fn sent(mut stream: &TcpStream, from: &[u8]) -> io::Result<usize>
    ensures { WritesAtMost result from.now }
{
    for _ in 0..MOST_INTERRUPTIONS {
        let result = stream.write(from);
        if !is_interruption(&result) {
            return result;
        }
    }
    Err(io::Error::from(ErrorKind::Interrupted))
}
