//! The ends of requests, announced to the passes that wait for one.

use site_words::Op;
use std::array;
use std::sync::Wait;
use std::sync::atomic::{AtomicU64, Ordering};

// How many bells there are: as many requests as may be under way at once.
const BELLS: usize = 64;

/// The ends of the requests of a site, announced to the passes that wait for one.
///
/// A request has the bell of its number modulo 64, which may be that of others too: a pass that was
/// woken asks again whether its request has ended.
#[derive(Drop)]
pub struct Ends {
    bells: [Bell; BELLS],
}

impl Ends {
    pub fn new() -> Self {
        Ends {
            bells: array::from_fn(|_| Bell::new()),
        }
    }

    /// A listener, which doesn't listen to a bell yet.
    pub fn listener(&self) -> Listener<'_> {
        Listener {
            ends: self,
            at: None,
        }
    }

    /// Wakes the passes that listen for the end of this request, where one has ended. Where nobody
    /// listens it is one load.
    pub fn announce(&self, ended: Option<u64>) {
        if let Some(request) = ended {
            self.bell_of(request).ring();
        }
    }

    // The bell of a request, which other requests may have too.
    fn bell_of(&self, request: u64) -> &Bell {
        &self.bells[(request % BELLS as u64) as usize]
    }
}

/// The request that an operation ends, where it ends one.
pub fn ended_by(op: &Op) -> Option<u64> {
    match op {
        Op::End { request, .. } | Op::Abandon { request } => Some(*request),
        _ => None,
    }
}

/// A pass that waits for the end of one request after the other. It listens until it is dropped.
#[derive(Drop)]
pub struct Listener<'a> {
    ends: &'a Ends,
    at: Option<Heard<'a>>,
}

impl Listener<'_> {
    /// Sleeps until this request has ended, where it listened for that already, and then listens
    /// for it anew. It may return early.
    ///
    /// Between two calls the pass asks whether the request is still under way. So it has asked once
    /// more since it listens, and no end is missed: who ends a request does that first and then
    /// looks whether somebody listens, and all steps are sequentially consistent.
    pub fn await_end<R: Wait>(&mut self, rt: &R, request: Option<u64>) {
        let Some(request) = request else {
            return;
        };
        if let Some(heard) = &self.at {
            heard.sleep_for(rt, request);
        }
        self.at = Some(Heard::new(self.ends, request));
    }
}

// Which request a pass listens for, at which bell, and how often that was rung before. It listens
// until this is dropped.
struct Heard<'a> {
    request: u64,
    bell: &'a Bell,
    rung: u64,
}

impl<'a> Heard<'a> {
    fn new(ends: &'a Ends, request: u64) -> Self {
        let bell = ends.bell_of(request);
        let rung = bell.listen();
        Heard {
            request,
            bell,
            rung,
        }
    }

    // Sleeps until the bell is rung, if this is the request that it listens for.
    fn sleep_for<R: Wait>(&self, rt: &R, request: u64) {
        if self.request == request {
            self.bell.sleep(rt, self.rung);
        }
    }
}

impl Drop for Heard<'_> {
    fn drop(self) {
        let Self {
            request: _,
            bell,
            rung: _,
        } = self;
        bell.leave();
    }
}

// What passes sleep on. Where nobody listens, nobody makes a system call.
#[derive(Drop)]
struct Bell {
    // How many passes listen.
    listening: AtomicU64,
    // How often it was rung.
    rung: AtomicU64,
}

impl Bell {
    fn new() -> Self {
        Bell {
            listening: AtomicU64::new(0),
            rung: AtomicU64::new(0),
        }
    }

    // Listens until `leave`, and answers how often the bell was rung before.
    fn listen(&self) -> u64 {
        self.listening.fetch_add(1, Ordering::SeqCst);
        self.rung.load(Ordering::SeqCst)
    }

    // Sleeps until the bell was rung more often than that. It may return early.
    fn sleep<R: Wait>(&self, rt: &R, rung: u64) {
        self.rung.park(rt, (rung & 0xffff_ffff) as u32);
    }

    // Listens no more.
    fn leave(&self) {
        self.listening.fetch_sub(1, Ordering::SeqCst);
    }

    // Wakes all that listen.
    fn ring(&self) {
        if self.listening.load(Ordering::SeqCst) != 0 {
            self.rung.fetch_add(1, Ordering::SeqCst);
            self.rung.wake_all();
        }
    }
}
