ghost use Rattle.std.specs.Prelude.{◌≡◌, IfOk};

use crate::accept::TcpAccept;
use crate::door::local;
use crate::editor::SharedListener;
use crate::round::{Quota, Round, SharedRound, Side};
use edges::{Bind, Failed};
use std::alloc::Global;
use std::io;
use std::net::{Net, TcpListener, TcpStream};
use std::sync::{Arc, Wait};
use std::time::Clock;

/// Binds listeners to ports of 127.0.0.1. It counts each that can't be had. The first listener is
/// for readers, and the second, whose rounds are the same, for editors. Each further one is for
/// those who are shown drafts, who are treated as editors are.
#[derive(Drop)]
pub struct TcpBind<'a, R> {
    rt: &'a R,
    alloc: Global,
    next: Next,
    faults: u64,
}

/// For whom the next listener is.
#[derive(Drop)]
enum Next {
    Readers,
    /// For editors, in the round of the readers' listener.
    Editors(SharedRound),
    Drafts,
}

impl<'a, R> TcpBind<'a, R> {
    pub fn new(rt: &'a R, alloc: Global) -> Self {
        TcpBind {
            rt,
            alloc,
            next: Next::Readers,
            faults: 0,
        }
    }
}

impl<'a, R: Net<Listener = TcpListener, Stream = TcpStream> + Clock> TcpBind<'a, R> {
    // A listener on this port.
    fn listen(&mut self, port: u16, connections: Option<u32>) -> io::Result<TcpAccept<'a, R>>
        ensures faults { self.new.faults ≡ self.old.faults }
        ensures port { IfOk result (λ on. on.port ≡ port) }
    {
        let listener: SharedListener = Arc::new(
            self.alloc,
            TcpListener::bind(self.rt, local(port))?,
        )?;
        let (round, side) = self.next_round()?;
        round.door(side).open(listener.local_addr()?.port());
        Ok(TcpAccept {
            rt: self.rt,
            alloc: self.alloc,
            listener,
            port,
            round,
            quota: Quota { side, connections },
        })
    }

    // The round of the next listener, and its side there.
    fn next_round(&mut self) -> io::Result<(SharedRound, Side)>
        ensures { self.new.faults ≡ self.old.faults }
    {
        let (next, round, side) = match &self.next {
            Next::Readers => {
                let round = self.new_round()?;
                (Next::Editors(Arc::try_clone(&round)?), round, Side::Readers)
            }
            Next::Editors(round) => (Next::Drafts, Arc::try_clone(round)?, Side::Editors),
            Next::Drafts => (Next::Drafts, self.new_round()?, Side::Editors),
        };
        self.next = next;
        Ok((round, side))
    }

    // A round of one listener, so far.
    fn new_round(&self) -> io::Result<SharedRound> {
        let round: SharedRound = Arc::new(self.alloc, Round::new())?;
        Ok(round)
    }
}

impl<'a, R: Net<Listener = TcpListener, Stream = TcpStream> + Clock + Wait + Sync> Bind
    for TcpBind<'a, R> {
    type On = TcpAccept<'a, R>;

    ghost faults = { λ bind. bind.faults };

    ghost bound_to = { λ on. on.port };

    fn bind(&mut self, port: u16, round: Option<u32>) -> Result<TcpAccept<'a, R>, Failed> {
        match self.listen(port, round) {
            Ok(listener) => Ok(listener),
            Err(_) => {
                self.faults = self.faults.saturating_add(1);
                Err(Failed)
            }
        }
    }
}
