//! What a pass does in its thread: many visits, or one in which a pass waits for the session that
//! another one holds.
ghost use Rattle.site_words.specs.Answers.{IsSamePort};
ghost use Rattle.pass_course.specs.Course.{IsIdle};

use crate::visiting::{Errand, begin, finish, visit};
use edges::Gate;
use pg_text::Text;
use site_words::{Compiled, Port};
use std::alloc::Global;
use std::sync::atomic::{AtomicU64, Ordering};
use std::thread;

/// The most looks at a word before a thread goes on.
const LOOKS: u32 = 10_000_000;

/// The pass that asks without a session while sixty others wait for one.
const VISITOR: u8 = 61;

/// How often sixty passes come to the gate until all of them wait: each twice.
const WAITING: u64 = 120;

/// Words that the threads of a meeting look at.
#[derive(Drop)]
pub struct Watch {
    /// 1 once pass 0 holds the session.
    pub held: AtomicU64,
    /// How often the passes that wait for the session came to the gate.
    pub tries: AtomicU64,
    /// How often the visitor without a session came to the gate.
    pub turns: AtomicU64,
    /// 1 once the visitor without a session was answered.
    pub answered: AtomicU64,
}

impl Watch {
    pub fn new() -> Self {
        Watch {
            held: AtomicU64::new(0),
            tries: AtomicU64::new(0),
            turns: AtomicU64::new(0),
            answered: AtomicU64::new(0),
        }
    }
}

/// A gate that counts how often the visitor comes to it, and how often the passes that wait for the
/// session: those between 0 and the visitor.
#[derive(Drop)]
pub struct Counting<'a> {
    pub watch: &'a Watch,
}

impl<'a> Gate for Counting<'a> {
    fn pass(&self, point: u64) {
        if point == u64::from(VISITOR) {
            self.watch.turns.fetch_add(1, Ordering::SeqCst);
        } else if point > 0 {
            self.watch.tries.fetch_add(1, Ordering::SeqCst);
        }
    }
}

/// What each pass does.
#[derive(Clone, Copy)]
pub enum Job {
    /// So many visits.
    Visits(u32),
    /// Pass 0 holds the session until another pass has asked for it.
    Meeting,
    /// Pass 0 holds the session, for which sixty passes wait, until another visitor was answered.
    Crowd,
}

/// Does the job of this pass.
pub fn work<P: Compiled, Q: Port<P>>(
    alloc: Global,
    port: &mut Q,
    number: u8,
    errand: &Errand,
    job: Job,
    watch: &Watch,
)
    requires { IsIdle (Q.opening port.old) (Q.pass port.old) (Q.seen port.old) }
    ensures same { IsSamePort (Q.pass port.old) (Q.pass port.new) (Q.opening port.old) (Q.opening port.new)
        (Q.home port.old) (Q.home port.new) }
    ensures idle { IsIdle (Q.opening port.new) (Q.pass port.new) (Q.seen port.new) }
{
    match job {
        Job::Visits(times) => visit_often(alloc, port, errand, times),
        Job::Meeting => meet(alloc, port, number, errand, watch, &watch.tries),
        Job::Crowd if number == VISITOR => pass_by(alloc, port, watch),
        Job::Crowd => meet(alloc, port, number, errand, watch, &watch.answered),
    }
}

// Visits the site so many times.
fn visit_often<P: Compiled, Q: Port<P>>(alloc: Global, port: &mut Q, errand: &Errand, times: u32)
    requires { IsIdle (Q.opening port.old) (Q.pass port.old) (Q.seen port.old) }
    ensures same { IsSamePort (Q.pass port.old) (Q.pass port.new) (Q.opening port.old) (Q.opening port.new)
        (Q.home port.old) (Q.home port.new) }
    ensures idle { IsIdle (Q.opening port.new) (Q.pass port.new) (Q.seen port.new) }
{
    for _ in 0..times {
        visit(alloc, port, errand);
    }
}

// Pass 0 holds the session until the word is set, while the others wait for it.
fn meet<P: Compiled, Q: Port<P>>(
    alloc: Global,
    port: &mut Q,
    number: u8,
    errand: &Errand,
    watch: &Watch,
    until: &AtomicU64,
)
    requires { IsIdle (Q.opening port.old) (Q.pass port.old) (Q.seen port.old) }
    ensures same { IsSamePort (Q.pass port.old) (Q.pass port.new) (Q.opening port.old) (Q.opening port.new)
        (Q.home port.old) (Q.home port.new) }
    ensures idle { IsIdle (Q.opening port.new) (Q.pass port.new) (Q.seen port.new) }
{
    if number != 0 {
        wait_until(&watch.held, 1);
    }
    let Some(begun) = begin(port, &errand.cookie) else {
        return;
    };
    if number == 0 {
        watch.held.store(1, Ordering::SeqCst);
        wait_until(until, 1);
    }
    finish(alloc, port, begun);
}

// A request without a session, once the others wait for one.
fn pass_by<P: Compiled, Q: Port<P>>(alloc: Global, port: &mut Q, watch: &Watch)
    requires { IsIdle (Q.opening port.old) (Q.pass port.old) (Q.seen port.old) }
    ensures same { IsSamePort (Q.pass port.old) (Q.pass port.new) (Q.opening port.old) (Q.opening port.new)
        (Q.home port.old) (Q.home port.new) }
    ensures idle { IsIdle (Q.opening port.new) (Q.pass port.new) (Q.seen port.new) }
{
    wait_until(&watch.tries, WAITING);
    let Ok(cookie) = Text::copy_of(alloc, "") else {
        return;
    };
    let Some(begun) = begin(port, &cookie) else {
        return;
    };
    finish(alloc, port, begun);
    watch.answered.store(1, Ordering::SeqCst);
}

// Looks at the word until it is at least so great, or often enough.
fn wait_until(word: &AtomicU64, least: u64) {
    for _ in 0..LOOKS {
        if word.load(Ordering::SeqCst) >= least {
            return;
        }
        thread::yield_now();
    }
}
