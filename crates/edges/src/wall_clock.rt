use crate::{Clock, Clocks};
use std::time;
use std::time::{SystemTime, UNIX_EPOCH};

/// The clock of the system, in seconds since 1970. Where it can't be read, the moment is the one
/// before; at first that is 0.
#[derive(Drop)]
pub struct WallClock<'a, R: time::Clock> {
    rt: &'a R,
    last: u64,
}

impl<'a, R: time::Clock> WallClock<'a, R> {
    pub fn new(rt: &'a R) -> Self {
        WallClock { rt, last: 0 }
    }
}

impl<'a, R: time::Clock> Clock for WallClock<'a, R> {
    ghost use Rattle.std.specs.Prelude.{None};

    ghost moments = { λ clock. record { ahead = None; noted = None } };

    fn now(&mut self) -> u64 {
        if let Some(moment) = moment(self.rt) {
            self.last = moment;
        }
        self.last
    }
}

/// Makes clocks of the system.
#[derive(Drop)]
pub struct WallClocks<'a, R: time::Clock> {
    pub rt: &'a R,
}

impl<'a, R: time::Clock + Sync> Clocks for WallClocks<'a, R> {
    type Of = WallClock<'a, R>;

    fn clock(&self) -> WallClock<'a, R> {
        WallClock::new(self.rt)
    }
}

// The seconds since 1970, where the system tells them.
fn moment<R: time::Clock>(rt: &R) -> Option<u64> {
    let passed = SystemTime::now(rt).ok()?.duration_since(UNIX_EPOCH).ok()?;
    Some(passed.as_secs())
}
