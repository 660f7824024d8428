ghost use Rattle.std.specs.Prelude.{◌≡◌};

use crate::editor::{Editor, SharedListener};
use crate::link::{Link, Shared};
use crate::round::{Quota, SharedRound, Side};
use crate::sink::TcpSink;
use crate::source::TcpSource;
use edges::{Accept, Accepted, Failed};
use std::alloc::Global;
use std::net::{Net, TcpStream};
use std::sync::atomic::AtomicU64;
use std::sync::{Arc, Wait};
use std::time::{Clock, Duration};
use std::{io, thread};

/// How many seconds a peer may take no byte of an answer.
const WRITE_SECONDS: u64 = 20;

/// How many milliseconds a listener sleeps that failed, as one does where no file descriptor is
/// left.
const PAUSE_MILLIS: u64 = 10;

/// For how many milliseconds one who came as the round ended may show that it has gone again.
const GLANCE_MILLIS: u64 = 10;

/// The two ways of a connection.
type Connection<'a, R> = (TcpSource<'a, R>, TcpSink);

/// A listener on a port. A number is drawn before each connection, and the round is over for
/// whoever draws one that isn't in it, unless an editor is connected.
#[derive(Drop)]
pub struct TcpAccept<'a, R: Clock> {
    pub(crate) rt: &'a R,
    pub(crate) alloc: Global,
    pub(crate) listener: SharedListener,

    /// The port to which it was to be bound; 0 is any.
    pub(crate) port: u16,
    pub(crate) round: SharedRound,
    pub(crate) quota: Quota,
}

/// The mark that a round is over.
#[derive(Clone, Copy, Drop)]
pub struct RoundOver {
    _private: (),
}

impl<'a, R: Net<Stream = TcpStream> + Clock + Wait> TcpAccept<'a, R> {
    // The next connection of this round. None if the round is over.
    fn next(&self) -> Option<io::Result<Connection<'a, R>>> {
        if !self.round.takes_one(self.rt, self.quota) {
            return None;
        }
        let came = self.came()?;
        if let Side::Editors = self.quota.side {
            return self.editor(came);
        }
        self.round.settle(self.rt, self.quota);
        match came {
            Ok(stream) => Some(self.ways(stream, None)),
            Err(error) => Some(Err(error)),
        }
    }

    // Whoever comes next, an editor who waits first. None if the round ends meanwhile.
    fn came(&self) -> Option<io::Result<TcpStream>> {
        if let Some(stream) = self.kept_editor() {
            return Some(Ok(stream));
        }
        let door = self.round.door(self.quota.side);
        door.enter();
        if self.round.is_over() {
            door.leave();
            return None;
        }
        let came = self.listener.accept();
        door.leave();
        match came {
            Ok((stream, _)) => Some(Ok(stream)),
            Err(error) => Some(Err(error)),
        }
    }

    // The editor who waits, at a listener of editors.
    fn kept_editor(&self) -> Option<TcpStream> {
        match self.quota.side {
            Side::Readers => None,
            Side::Editors => self.round.next_editor(self.rt),
        }
    }

    // The connection of an editor, who stays for the round. Whoever comes as it ends is kept for
    // the next one.
    fn editor(&self, came: io::Result<TcpStream>) -> Option<io::Result<Connection<'a, R>>> {
        let stream = match came {
            Ok(stream) => stream,
            Err(error) => {
                self.round.settle(self.rt, self.quota);
                return Some(Err(error));
            }
        };
        if self.round.add_editor(self.rt) {
            return Some(self.edit(stream));
        }
        if !has_gone(&stream) {
            self.round.keep_editor(self.rt, stream);
        }
        self.round.wake_if_over(self.rt);
        None
    }

    // The connection of an editor whom the round has counted in.
    fn edit(&self, stream: TcpStream) -> io::Result<Connection<'a, R>> {
        let round = Arc::try_clone(&self.round)?;
        let listener = Arc::try_clone(&self.listener)?;
        let editor = Editor::new(self.rt, round, self.quota, listener);
        self.ways(stream, Some(editor))
    }

    // The two ways of a connection.
    fn ways(
        &self,
        stream: TcpStream,
        editor: Option<Editor<'a, R>>,
    ) -> io::Result<Connection<'a, R>> {
        stream.set_nodelay(true)?;
        stream.set_write_timeout(Some(Duration::from_secs(WRITE_SECONDS)))?;
        let link: Shared = Arc::new(
            self.alloc,
            Link {
                stream,
                pieces: AtomicU64::new(0),
            },
        )?;
        let sink = TcpSink::new(self.alloc, Arc::try_clone(&link)?);
        let round = Arc::try_clone(&self.round)?;
        Ok((TcpSource::new(self.rt, link, round, editor)?, sink))
    }
}

impl<'a, R: Net<Stream = TcpStream> + Clock + Wait + Sync> Accept for TcpAccept<'a, R> {
    type From = TcpSource<'a, R>;

    type Into = TcpSink;

    type Closing = RoundOver;

    fn accept(
        &self,
        faults: &mut u64,
    ) -> Result<Accepted<TcpSource<'a, R>, TcpSink, RoundOver>, Failed> {
        match self.next() {
            None => Ok(Accepted::Closed(RoundOver { _private: () })),
            Some(Ok((source, sink))) => Ok(Accepted::Pair(source, sink)),
            Some(Err(_)) => {
                thread::sleep(self.rt, Duration::from_millis(PAUSE_MILLIS));
                *faults = faults.saturating_add(1);
                Err(Failed)
            }
        }
    }

    // The round is shared by two listeners: both are renewed before either accepts.
    fn renew(&mut self) {
        self.round.door(self.quota.side).begin();
        self.round.begin(self.rt);
    }
}

// Whether who came has gone again without a word, as the connection does that wakes a worker.
fn has_gone(stream: &TcpStream) -> bool {
    let glance = Duration::from_millis(GLANCE_MILLIS);
    stream.set_read_timeout(Some(glance)).is_ok() && stream.peek(&mut [0]).is_ok_and(|n| n == 0)
}
