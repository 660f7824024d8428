use crate::door::Door;
use std::alloc::Global;
use std::net::{Net, TcpStream};
use std::sync::atomic::{AtomicBool, Ordering};
use std::sync::{Arc, Mutex, Wait};
use std::time::{Clock, Duration, Instant};

/// How many seconds after its number was reached a round waits for an editor, and how many after
/// twice that number was reached.
const PATIENT_SECONDS: u64 = 60;

const HURRIED_SECONDS: u64 = 5;

/// The round of the readers' listener and the editors'. It is over for both at once, and never
/// while an editor is connected.
#[derive(Drop)]
pub(crate) struct Round {
    /// What `progress` says of it, for connections, which ask between any two requests.
    is_over: AtomicBool,
    progress: Mutex<Progress>,
    readers: Door,
    editors: Door,
}

/// A round, for both listeners and their connections.
pub(crate) type SharedRound = Arc<Round, Global>;

/// Which of the two listeners of a round.
#[derive(Clone, Copy, Drop)]
pub(crate) enum Side {
    Readers,
    Editors,
}

/// How many connections a round has at one of its listeners; None if it has no end.
#[derive(Clone, Copy, Drop)]
pub(crate) struct Quota {
    pub(crate) side: Side,
    pub(crate) connections: Option<u32>,
}

/// How far a round has come.
#[derive(Drop)]
struct Progress {
    /// How many editors are connected.
    editors: u32,

    /// Whether the number of a listener was reached. Then the round ends as soon as no editor is
    /// connected.
    is_reached: bool,

    /// When an editor has to go.
    deadline: Option<Instant>,
    is_over: bool,

    /// The connection of an editor who waits for the one before, or for the next round.
    next_editor: Option<TcpStream>,
}

impl Round {
    pub(crate) fn new() -> Self {
        Round {
            is_over: AtomicBool::new(false),
            progress: Mutex::new(Progress {
                editors: 0,
                is_reached: false,
                deadline: None,
                is_over: false,
                next_editor: None,
            }),
            readers: Door::new(),
            editors: Door::new(),
        }
    }

    /// The door of a listener.
    pub(crate) fn door(&self, side: Side) -> &Door {
        match side {
            Side::Readers => &self.readers,
            Side::Editors => &self.editors,
        }
    }

    pub(crate) fn is_over(&self) -> bool {
        self.is_over.load(Ordering::SeqCst)
    }

    /// Whether one more connection is taken in this round: the number that it draws is in it, or an
    /// editor is connected.
    pub(crate) fn takes_one<R: Wait>(&self, rt: &R, quota: Quota) -> bool {
        if self.is_over() {
            return false;
        }
        match quota.connections {
            Some(connections) => {
                self.door(quota.side).draw() < u64::from(connections)
                    || self.progress.lock(rt).editors > 0
            }
            None => true,
        }
    }

    /// One number more is settled: a reader's connection came, an editor's has ended, or none could
    /// be had. All who wait are woken if the round is over.
    pub(crate) fn settle<R: Net<Stream = TcpStream> + Clock + Wait>(&self, rt: &R, quota: Quota) {
        let Some(connections) = quota.connections else {
            return;
        };
        let connections = u64::from(connections);
        let settled = self.door(quota.side).settle();
        if settled >= connections.saturating_mul(2) {
            self.reach(rt, HURRIED_SECONDS);
        } else if settled >= connections {
            self.reach(rt, PATIENT_SECONDS);
        }
        self.wake_if_over(rt);
    }

    // The number of a listener was reached, and an editor has so many seconds more.
    fn reach<R: Clock + Wait>(&self, rt: &R, seconds: u64) {
        let deadline = match Instant::now(rt) {
            Ok(now) => now.checked_add(Duration::from_secs(seconds)),
            Err(_) => None,
        };
        let mut progress = self.progress.lock(rt);
        progress.reach(deadline);
        self.is_over.store(progress.is_over, Ordering::SeqCst);
    }

    /// An editor is connected from now on, unless the round is over.
    pub(crate) fn add_editor<R: Wait>(&self, rt: &R) -> bool {
        let mut progress = self.progress.lock(rt);
        if progress.is_over {
            return false;
        }
        progress.editors = progress.editors.saturating_add(1);
        true
    }

    /// An editor has gone, which settles its number.
    pub(crate) fn remove_editor<R: Net<Stream = TcpStream> + Clock + Wait>(
        &self,
        rt: &R,
        quota: Quota,
    ) {
        let mut progress = self.progress.lock(rt);
        progress.remove_editor();
        self.is_over.store(progress.is_over, Ordering::SeqCst);
        drop(progress);
        self.settle(rt, quota);
        self.wake_if_over(rt);
    }

    /// Whether the place of an editor is wanted, by another editor or by the next round.
    pub(crate) fn is_wanted<R: Wait>(&self, rt: &R) -> bool {
        let progress = self.progress.lock(rt);
        progress.is_reached || progress.next_editor.is_some()
    }

    /// When an editor has to go, if that is set.
    pub(crate) fn deadline<R: Wait>(&self, rt: &R) -> Option<Instant> {
        self.progress.lock(rt).deadline
    }

    /// Whether another editor is known to wait.
    pub(crate) fn has_next_editor<R: Wait>(&self, rt: &R) -> bool {
        self.progress.lock(rt).next_editor.is_some()
    }

    /// Lets an editor wait.
    pub(crate) fn keep_editor<R: Wait>(&self, rt: &R, stream: TcpStream) {
        self.progress.lock(rt).next_editor = Some(stream);
    }

    /// The editor who waits.
    pub(crate) fn next_editor<R: Wait>(&self, rt: &R) -> Option<TcpStream> {
        self.progress.lock(rt).next_editor.take()
    }

    /// A round begins. Who waits goes on waiting.
    pub(crate) fn begin<R: Wait>(&self, rt: &R) {
        self.progress.lock(rt).begin();
        self.is_over.store(false, Ordering::SeqCst);
    }

    /// Wakes one of those who wait at each listener, if the round is over. Whoever is woken wakes
    /// the next, so that nobody waits after the round.
    pub(crate) fn wake_if_over<R: Net<Stream = TcpStream>>(&self, rt: &R) {
        if self.is_over() {
            self.readers.wake(rt);
            self.editors.wake(rt);
        }
    }
}

impl Progress {
    // The number of a listener was reached, and an editor has until then.
    fn reach(&mut self, deadline: Option<Instant>) {
        self.is_reached = true;
        self.deadline = match (self.deadline, deadline) {
            (Some(before), Some(deadline)) => Some(before.min(deadline)),
            (before, deadline) => before.or(deadline),
        };
        self.end_if_due();
    }

    // One editor less is connected.
    fn remove_editor(&mut self) {
        self.editors = self.editors.saturating_sub(1);
        self.end_if_due();
    }

    // The round is over once its number was reached and no editor is connected.
    fn end_if_due(&mut self) {
        self.is_over = self.is_over || self.is_reached && self.editors == 0;
    }

    // A new round.
    fn begin(&mut self) {
        self.is_reached = false;
        self.deadline = None;
        self.is_over = false;
    }
}
