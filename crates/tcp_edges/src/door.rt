use std::net::{Ipv4Addr, Net, SocketAddr, SocketAddrV4, TcpStream};
use std::sync::atomic::{AtomicU16, AtomicU64, Ordering};
use std::time::Duration;

/// For how many milliseconds a connection is tried that wakes a worker.
const WAKE_MILLIS: u64 = 100;

/// A listener's port, how far its round has come, and how many workers wait for a connection.
#[derive(Drop)]
pub(crate) struct Door {
    port: AtomicU16,
    drawn: AtomicU64,
    settled: AtomicU64,
    waiting: AtomicU64,
}

impl Door {
    pub(crate) fn new() -> Self {
        Door {
            port: AtomicU16::new(0),
            drawn: AtomicU64::new(0),
            settled: AtomicU64::new(0),
            waiting: AtomicU64::new(0),
        }
    }

    /// The listener of this door is bound to this port.
    pub(crate) fn open(&self, port: u16) {
        self.port.store(port, Ordering::SeqCst);
    }

    /// A round begins, and its numbers with it.
    pub(crate) fn begin(&self) {
        self.drawn.store(0, Ordering::SeqCst);
        self.settled.store(0, Ordering::SeqCst);
    }

    /// Draws the next number.
    pub(crate) fn draw(&self) -> u64 {
        self.drawn.fetch_add(1, Ordering::SeqCst)
    }

    /// One number more is settled. Says how many are.
    pub(crate) fn settle(&self) -> u64 {
        self.settled
            .fetch_add(1, Ordering::SeqCst)
            .saturating_add(1)
    }

    /// One more waits.
    pub(crate) fn enter(&self) {
        self.waiting.fetch_add(1, Ordering::SeqCst);
    }

    /// One waits no more.
    pub(crate) fn leave(&self) {
        self.waiting.fetch_sub(1, Ordering::SeqCst);
    }

    /// Wakes one of those who wait, by a connection that says nothing.
    pub(crate) fn wake<R: Net<Stream = TcpStream>>(&self, rt: &R) {
        if self.waiting.load(Ordering::SeqCst) > 0 {
            let address = local(self.port.load(Ordering::SeqCst));
            let _ = TcpStream::connect_timeout(rt, &address, Duration::from_millis(WAKE_MILLIS));
        }
    }
}

/// A port of this machine.
pub(crate) fn local(port: u16) -> SocketAddr {
    SocketAddr::V4(SocketAddrV4::new(Ipv4Addr::LOCALHOST, port))
}
