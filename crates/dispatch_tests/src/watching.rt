// How much a sink had taken when a page asks its first step.
use crate::preceded::Before;
use edges::{Failed, MemSink, Sink};
use std::cell::Cell;

/// A sink in memory that counts what it has taken where others see it.
#[derive(Drop)]
pub struct Counted<'a> {
    pub inner: MemSink,
    pub count: &'a Cell<u64>,
}

impl<'a> Sink for Counted<'a> {
    ghost use Rattle.std.specs.Prelude.{Some};

    ghost taken = { λ s. Some s.inner.taken };

    ghost faults = { λ s. s.inner.faults };

    fn write(&mut self, from: &[u8]) -> Result<usize, Failed> {
        let taken = self.inner.write(from)?;
        let count = self.count.get().saturating_add(taken as u64);
        self.count.set(count);
        Ok(taken)
    }
}

/// Notes the count when a step on the application's attributes is asked first.
#[derive(Drop)]
pub struct Watching<'a> {
    pub count: &'a Cell<u64>,
    pub noted: Option<u64>,
}

impl<'a> Before for Watching<'a> {
    fn step(&mut self) {
        if self.noted.is_none() {
            self.noted = Some(self.count.get());
        }
    }

    fn fetch(&mut self) {}
}
