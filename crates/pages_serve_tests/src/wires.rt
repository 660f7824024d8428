//! Connections in memory, a listener that gives each of them once, and a gate that holds the first
//! operation.
use edges::{Accept, Accepted, Bind, Failed, Gate, MemSink, MemSource, Sink};
use std::alloc::{AllocError, Global};
use std::sync::atomic::{AtomicU64, Ordering};
use std::sync::{Mutex, Wait};
use std::thread;

/// The most looks at a connection before the gate lets go.
const LOOKS: u32 = 1_000_000;

/// A connection: the bytes that come, those that were written, and how many these are.
#[derive(Drop)]
pub struct Wire {
    bytes: Vec<u8>,
    taken: Mutex<Vec<u8>>,
    count: AtomicU64,
}

impl Wire {
    pub fn new(alloc: Global, text: &str) -> Result<Self, AllocError> {
        Ok(Wire {
            bytes: text.as_bytes().to_vec(alloc)?,
            taken: Mutex::new(Vec::new(alloc)),
            count: AtomicU64::new(0),
        })
    }

    /// Whether this was written, and nothing else.
    pub fn has_taken<R: Wait>(&self, rt: &R, text: &[u8]) -> bool {
        self.taken.lock(rt).as_slice() == text
    }

    /// Whether what was written ends so.
    pub fn ends_with<R: Wait>(&self, rt: &R, text: &[u8]) -> bool {
        self.taken.lock(rt).as_slice().ends_with(text)
    }
}

/// Where a connection's bytes go to.
#[derive(Drop)]
pub struct WireSink<'a, R> {
    rt: &'a R,
    wire: &'a Wire,
    faults: u64,
}

impl<'a, R: Wait> Sink for WireSink<'a, R> {
    ghost use Rattle.std.specs.Prelude.{None};

    ghost taken = { λ s. None };

    ghost faults = { λ s. s.faults };

    fn write(&mut self, from: &[u8]) -> Result<usize, Failed> {
        if keep(self.rt, &self.wire.taken, from).is_err() {
            self.faults = self.faults.saturating_add(1);
            return Err(Failed);
        }
        self.wire
            .count
            .fetch_add(from.len() as u64, Ordering::SeqCst);
        Ok(from.len())
    }
}

// Adds bytes to those that were taken.
fn keep<R: Wait>(rt: &R, taken: &Mutex<Vec<u8>>, from: &[u8]) -> Result<(), AllocError> {
    taken.lock(rt).extend_from_slice(from)
}

/// A listener that gives each of these connections once.
#[derive(Drop)]
pub struct WireAccept<'a, R> {
    rt: &'a R,
    alloc: Global,
    wires: &'a [Wire],
    drawn: AtomicU64,
}

impl<'a, R> WireAccept<'a, R> {
    pub fn new(rt: &'a R, alloc: Global, wires: &'a [Wire]) -> Self {
        WireAccept {
            rt,
            alloc,
            wires,
            drawn: AtomicU64::new(0),
        }
    }
}

/// The mark that there is no connection any more.
#[derive(Drop)]
pub struct Over;

impl<'a, R: Wait + Sync> Accept for WireAccept<'a, R> {
    type From = MemSource;

    type Into = WireSink<'a, R>;

    type Closing = Over;

    fn accept(
        &self,
        faults: &mut u64,
    ) -> Result<Accepted<MemSource, WireSink<'a, R>, Over>, Failed> {
        let number = self.drawn.fetch_add(1, Ordering::SeqCst);
        if number >= self.wires.len() as u64 {
            return Ok(Accepted::Closed(Over));
        }
        let wire = &self.wires[number as usize];
        let Ok(bytes) = wire.bytes.as_slice().to_vec(self.alloc) else {
            *faults = faults.saturating_add(1);
            return Err(Failed);
        };
        Ok(Accepted::Pair(
            MemSource::new(bytes, 4_096, Vec::new(self.alloc)),
            WireSink {
                rt: self.rt,
                wire,
                faults: 0,
            },
        ))
    }

    fn renew(&mut self) {
        self.drawn = AtomicU64::new(0);
    }
}

/// A gate that holds the first operation until something was written to one of these connections,
/// which then is another's answer. Where it looked often enough, it lets go and keeps that in mind.
#[derive(Drop)]
pub struct HeldGate<'a> {
    pub wires: &'a [Wire],

    /// How many operations came to it. The first is held.
    pub passed: AtomicU64,
    pub gave_up: &'a AtomicU64,
}

impl<'a> Gate for HeldGate<'a> {
    fn pass(&self, _point: u64) {
        if self.passed.fetch_add(1, Ordering::SeqCst) > 0 {
            return;
        }
        for _ in 0..LOOKS {
            if is_answered(self.wires) {
                return;
            }
            thread::yield_now();
        }
        self.gave_up.store(1, Ordering::SeqCst);
    }
}

// Whether something was written to one of these connections.
fn is_answered(wires: &[Wire]) -> bool {
    for wire in wires {
        if wire.count.load(Ordering::SeqCst) > 0 {
            return true;
        }
    }
    false
}

/// Binds nothing.
#[derive(Drop)]
pub struct NoBind {
    pub faults: u64,
}

/// A listener whose round is over.
#[derive(Drop)]
pub struct NoAccept;

impl Accept for NoAccept {
    type From = MemSource;

    type Into = MemSink;

    type Closing = Over;

    fn accept(&self, _faults: &mut u64) -> Result<Accepted<MemSource, MemSink, Over>, Failed> {
        Ok(Accepted::Closed(Over))
    }

    fn renew(&mut self) {}
}

impl Bind for NoBind {
    type On = NoAccept;

    ghost faults = { λ bind. bind.faults };

    ghost bound_to = { λ _. 0 };

    fn bind(&mut self, _port: u16, _round: Option<u32>) -> Result<NoAccept, Failed> {
        self.faults = self.faults.saturating_add(1);
        Err(Failed)
    }
}
