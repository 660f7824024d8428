ghost use Rattle.std.specs.Io.{ReadsAtMost};
ghost use Rattle.std.specs.Prelude.{IfOk, IfSome, length, ◌≤◌};

use crate::link::received;
use crate::round::{Quota, SharedRound};
use std::alloc::Global;
use std::io;
use std::io::ErrorKind;
use std::net::{Net, TcpListener, TcpStream};
use std::sync::{Arc, Wait};
use std::time::{Clock, Instant};

/// For how many seconds the socket of an editor waits at a time.
pub(crate) const SLICE_SECONDS: u64 = 1;

/// How many seconds an editor may be silent between two messages, and how many while another one
/// waits or the number of the round was reached.
const SILENT_SECONDS: u64 = 60;

const WANTED_SECONDS: u64 = 5;

/// A listener that the connections of editors look at, too.
pub(crate) type SharedListener = Arc<TcpListener, Global>;

/// An editor who is connected, or one who is shown drafts. The round isn't over before this is
/// dropped.
pub(crate) struct Editor<'a, R: Net<Stream = TcpStream> + Clock + Wait> {
    rt: &'a R,
    round: SharedRound,
    quota: Quota,
    listener: SharedListener,
}

impl<'a, R: Net<Stream = TcpStream> + Clock + Wait> Editor<'a, R> {
    /// An editor whom the round has counted in.
    pub(crate) fn new(
        rt: &'a R,
        round: SharedRound,
        quota: Quota,
        listener: SharedListener,
    ) -> Self {
        Editor {
            rt,
            round,
            quota,
            listener,
        }
    }

    /// What an editor sends after the last message. None if the editor has to go for the next round
    /// to begin; an error if nothing came for too long.
    pub(crate) fn next_message(
        &self,
        stream: &TcpStream,
        into: &mut [u8],
    ) -> io::Result<Option<usize>>
        ensures { IfOk result (λ came. IfSome came (λ count. count ≤ length into.new)) }
    {
        let silent_since = Instant::now(self.rt)?;
        for _ in 0..=SILENT_SECONDS / SLICE_SECONDS {
            let now = Instant::now(self.rt)?;
            if self.has_to_go(now) {
                return Ok(None);
            }
            match received(stream, into) {
                Ok(count) => return Ok(Some(count)),
                Err(error) if error.kind() == ErrorKind::WouldBlock => {}
                Err(error) => return Err(error),
            }
            self.look_for_another();
            if silent_since.elapsed(self.rt)?.as_secs() >= self.patience() {
                break;
            }
        }
        Err(io::Error::from(ErrorKind::TimedOut))
    }

    // Whether the round has waited long enough.
    fn has_to_go(&self, now: Instant) -> bool {
        match self.round.deadline(self.rt) {
            Some(deadline) => deadline <= now,
            None => false,
        }
    }

    // How many seconds an editor may be silent.
    fn patience(&self) -> u64 {
        if self.round.is_wanted(self.rt) {
            WANTED_SECONDS
        } else {
            SILENT_SECONDS
        }
    }

    // Takes the connection of an editor who waits, if there is one, and keeps it for later.
    fn look_for_another(&self) {
        if self.round.has_next_editor(self.rt) || self.listener.set_nonblocking(true).is_err() {
            return;
        }
        let came = self.listener.accept();
        let _ = self.listener.set_nonblocking(false);
        if let Ok((stream, _)) = came {
            self.round.keep_editor(self.rt, stream);
        }
    }
}

impl<'a, R: Net<Stream = TcpStream> + Clock + Wait> Drop for Editor<'a, R> {
    fn drop(self) {
        self.round.remove_editor(self.rt, self.quota);
        let Editor {
            rt: _,
            round: _,
            quota: _,
            listener: _,
        } = self;
    }
}
