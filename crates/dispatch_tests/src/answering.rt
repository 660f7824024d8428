ghost use Rattle.std.specs.Prelude.{◌≡◌, ◌<◌};
ghost use Rattle.pass_course.specs.Course.{IsIdle};

use crate::asking::{Asked, ask};
use crate::opening::opened;
use compiled_pages::Made;
use edges::{Clock, Counting, MemClock, MemSink, Steps};
use packed_entries::OpRef;
use site_core::{Site, SoloPort, into_site};
use std::alloc::{AllocError, Global};
use std::marker::Brand;
use std::sync::ledger::{Blank, Ledger};
use std::test::Fail;

/// A site of these files on which nobody else acts, whose journal weighs at most `limit`; and
/// requests, which begin at these moments, over a sink that fails at these calls.
#[derive(Clone, Copy)]
pub struct Course<'a> {
    pub files: &'a [(&'a str, &'a str)],
    pub limit: u64,
    pub moments: &'a [u64],
    pub asked: &'a [Asked<'a>],
    pub fails: &'a [u64],
}

// A site on which nobody else acts, the moments of its requests, and the bytes that were read for
// its pages.
#[derive(Drop)]
struct Answering<N: Ledger> {
    port: SoloPort<Made>,
    clock: MemClock,
    steps: Steps<Counting<N>>,
    ghost idle: { IsIdle port.actor.site.opening 0 port.actor.site.history },
}

impl<N: Ledger> Answering<N> {
    fn new(alloc: Global, blank: Blank, course: &Course<'_>) -> Result<Self, Fail>
        requires name { blank.name ≡ N.name }
        requires parts { blank.parts ≡ N.parts }
        requires some { 0 < N.parts }
    {
        if course.moments.is_empty() {
            return Err(Fail::new("a clock has a moment"));
        }
        Ok(Answering {
            port: opened(alloc, course.files, course.limit)?,
            clock: MemClock::new(course.moments.to_vec(alloc)?),
            steps: Steps::<Counting<N>>::counting(blank),
        })
    }

    // Adds a line: the outcome of a request over a sink that fails at these calls, how many bytes
    // were read to make pages, and the answer.
    fn answer(
        &mut self,
        alloc: Global,
        lines: &mut String,
        asked: Asked<'_>,
        fails: &[u64],
    ) -> Result<(), Fail> {
        let mut sink = MemSink::new(alloc, fails.to_vec(alloc)?);
        let before = self.steps.count();
        let outcome = ask(
            alloc,
            &mut self.port,
            asked,
            &mut sink,
            &mut self.clock,
            &mut self.steps,
        )?;
        let read = self.steps.count().saturating_sub(before);
        let text = str::from_utf8(sink.taken()).unwrap_or("no text");
        Ok(write!(lines, "{outcome:?} {read} {text}\n")?)
    }

    // A line for each of the requests.
    fn lines(&mut self, alloc: Global, course: &Course<'_>) -> Result<String, Fail> {
        let mut lines = String::new(alloc);
        for &asked in course.asked {
            self.answer(alloc, &mut lines, asked, course.fails)?;
        }
        Ok(lines)
    }

    // What the requests did.
    fn history(self, alloc: Global) -> Result<String, AllocError> {
        let Answering { port, .. } = self;
        letters(alloc, &into_site(port))
    }
}

// A letter for each entry of the history: B for a Begin, A for a step of the application, S for a
// session that is made, F for a Fetch, O for an Offer, E for an End and D for an Abandon.
fn letters(alloc: Global, site: &Site<Made>) -> Result<String, AllocError> {
    let mut text = String::new(alloc);
    for entry in site.history().iter() {
        text.push(letter(entry.op()))?;
    }
    Ok(text)
}

// What comes of requests one after the other: a line for each; then the moment at which a next one
// begins, and what they did.
fn come_of<N: Ledger>(alloc: Global, blank: Blank, course: &Course<'_>) -> Result<String, Fail>
    requires name { blank.name ≡ N.name }
    requires parts { blank.parts ≡ N.parts }
    requires some { 0 < N.parts }
{
    let mut site = Answering::<N>::new(alloc, blank, course)?;
    let mut lines = site.lines(alloc, course)?;
    let next = site.clock.now();
    let history = site.history(alloc)?;
    write!(lines, "{next} {}", history.as_str())?;
    Ok(lines)
}

/// The same under the only name of a ledger.
pub fn come(alloc: Global, course: &Course<'_>) -> Result<String, Fail> {
    come_of::<Brand>(alloc, Blank::new(1), course)
}

fn letter(op: OpRef<'_>) -> char {
    match op {
        OpRef::Begin { .. } => 'B',
        OpRef::App { .. } => 'A',
        OpRef::Fresh { .. } => 'S',
        OpRef::Fetch { .. } => 'F',
        OpRef::Offer { .. } => 'O',
        OpRef::End { .. } => 'E',
        OpRef::Abandon { .. } => 'D',
        _ => '?',
    }
}
