ghost use Rattle.std.specs.Prelude.{◌≡◌, ◌≤◌, IfOk, IfSome, length};
ghost use Rattle.std.specs.Io.{ReadsAtMost};

use crate::editor::{Editor, SLICE_SECONDS};
use crate::link::{Shared, received};
use crate::round::SharedRound;
use crate::wait::{BETWEEN_SECONDS, Begun};
use edges::{Failed, Source};
use std::io;
use std::io::ErrorKind;
use std::net::{Net, Shutdown, TcpStream};
use std::sync::Wait;
use std::sync::atomic::Ordering;
use std::time::{Clock, Duration, Instant};

/// For how many milliseconds what a peer still sends is dropped before its connection is closed.
const LINGER_MILLIS: u128 = 1_000;

/// For how many milliseconds a peer may be silent in that time.
const SILENCE_MILLIS: u64 = 200;

/// The most pieces of a dropped rest.
const MOST_PIECES: u32 = 1_000_000;

/// What comes from the peer of a connection. A peer that keeps it waiting is a failure.
pub struct TcpSource<'a, R: Net<Stream = TcpStream> + Clock + Wait> {
    rt: &'a R,
    link: Shared,
    round: SharedRound,

    /// The peer, if it is an editor.
    editor: Option<Editor<'a, R>>,
    faults: u64,

    /// How many pieces were written when it last read.
    pieces: u64,

    /// How many seconds the socket waits for a byte.
    seconds: u64,

    /// The request that is under way.
    begun: Option<Begun>,

    /// The peer has closed, or a read failed.
    is_over: bool,
}

impl<'a, R: Net<Stream = TcpStream> + Clock + Wait> TcpSource<'a, R> {
    /// The way from the peer of this connection.
    pub(crate) fn new(
        rt: &'a R,
        link: Shared,
        round: SharedRound,
        editor: Option<Editor<'a, R>>,
    ) -> io::Result<Self> {
        let seconds = between(&editor);
        wait_for(&link.stream, seconds)?;
        Ok(TcpSource {
            rt,
            link,
            round,
            editor,
            faults: 0,
            pieces: 0,
            seconds,
            begun: None,
            is_over: false,
        })
    }

    // The next bytes, where they come in time.
    fn next(&mut self, into: &mut [u8]) -> io::Result<usize>
        ensures bound { ReadsAtMost result into.new }
        ensures faults { self.new.faults ≡ self.old.faults }
    {
        self.be_patient()?;
        let Some(count) = self.received(into)? else {
            return Ok(0);
        };
        if count == 0 {
            self.is_over = true;
            return Ok(0);
        }
        let came = &into[..count];
        match &mut self.begun {
            Some(begun) => begun.note(came),
            None => self.begun = Some(Begun::new(came)),
        }
        Ok(count)
    }

    // What the peer sends. None if the connection ends here, between two requests.
    fn received(&self, into: &mut [u8]) -> io::Result<Option<usize>>
        ensures { IfOk result (λ came. IfSome came (λ count. count ≤ length into.new)) }
    {
        let stream = &self.link.stream;
        match &self.editor {
            Some(editor) if self.begun.is_none() => editor.next_message(stream, into),
            None if self.ends_here() => Ok(None),
            _ => Ok(Some(received(stream, into)?)),
        }
    }

    // Whether the round is over between two requests of a reader. A connection that hasn't asked
    // yet may ask once.
    fn ends_here(&self) -> bool {
        self.begun.is_none() && self.pieces > 0 && self.round.is_over()
    }

    // Sets how long the socket waits.
    fn be_patient(&mut self) -> io::Result<()>
        ensures { self.new.faults ≡ self.old.faults }
    {
        let pieces = self.link.pieces.load(Ordering::SeqCst);
        if pieces != self.pieces {
            self.pieces = pieces;
            self.begun = None;
        }
        let seconds = match &mut self.begun {
            None => between(&self.editor),
            Some(begun) => match begun.patience(Instant::now(self.rt)?) {
                Some(seconds) => seconds,
                None => return Err(io::Error::from(ErrorKind::TimedOut)),
            },
        };
        if seconds != self.seconds {
            wait_for(&self.link.stream, seconds)?;
            self.seconds = seconds;
        }
        Ok(())
    }
}

impl<'a, R: Net<Stream = TcpStream> + Clock + Wait> Source for TcpSource<'a, R> {
    ghost use Rattle.std.specs.Prelude.{None};

    ghost left = { λ s. None };

    ghost faults = { λ s. s.faults };

    ghost unfailing = { λ s. ⊥ };

    fn read(&mut self, into: &mut [u8]) -> Result<usize, Failed> {
        match self.next(into) {
            Ok(count) => Ok(count),
            Err(_) => {
                self.is_over = true;
                self.faults = self.faults.saturating_add(1);
                Err(Failed)
            }
        }
    }
}

impl<'a, R: Net<Stream = TcpStream> + Clock + Wait> Drop for TcpSource<'a, R> {
    fn drop(self) {
        if !self.is_over {
            let _ = drop_the_rest(self.rt, &self.link.stream);
        }
        let TcpSource {
            rt: _,
            link: _,
            round: _,
            editor: _,
            faults: _,
            pieces: _,
            seconds: _,
            begun: _,
            is_over: _,
        } = self;
    }
}

// For how many seconds at a time the socket waits for a request.
fn between<R: Net<Stream = TcpStream> + Clock + Wait>(editor: &Option<Editor<'_, R>>) -> u64 {
    match editor {
        Some(_) => SLICE_SECONDS,
        None => BETWEEN_SECONDS,
    }
}

// Lets the socket wait for so many seconds.
fn wait_for(stream: &TcpStream, seconds: u64) -> io::Result<()> {
    stream.set_read_timeout(Some(Duration::from_secs(seconds)))
}

// Sends the peer an end, and drops what it still sends.
fn drop_the_rest<R: Clock>(rt: &R, stream: &TcpStream) -> io::Result<()> {
    stream.shutdown(Shutdown::Write)?;
    stream.set_read_timeout(Some(Duration::from_millis(SILENCE_MILLIS)))?;
    let begun = Instant::now(rt)?;
    let mut dropped = [0; 16_384];
    for _ in 0..MOST_PIECES {
        if received(stream, &mut dropped)? == 0 || begun.elapsed(rt)?.as_millis() >= LINGER_MILLIS {
            return Ok(());
        }
    }
    Ok(())
}
