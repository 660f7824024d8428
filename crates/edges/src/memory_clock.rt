ghost use Rattle.std.specs.Prelude.{◌≡◌, ◌<◌, length, vec_len};

use crate::{Clock, Clocks};
use std::marker::Model;

/// A clock that answers these moments one by one, for tests and for runs without an outside.
/// Contracts see those ahead.
#[derive(Drop)]
pub struct MemClock {
    moments: Vec<u64>,
    at: usize,
}

impl Model for MemClock {
    ghost use Rattle.std.specs.Prelude.{◌<◌, List, ℕ, drop, vec_len};

    ghost Value = { List ℕ };

    ghost view = { λ c. drop c.at c.moments.items };

    ghost invariant = { λ c. c.at < vec_len c.moments };
}

impl MemClock {
    pub fn new(moments: Vec<u64>) -> Self
        requires { 0 < vec_len moments }
        ensures { result ≡ moments.items }
    {
        MemClock { moments, at: 0 }
    }

    /// How many moments are ahead. It never falls below 1, since the last one stays.
    pub fn left(&self) -> usize
        ensures { result ≡ length self.now }
    {
        self.moments.len() - self.at
    }
}

impl Clock for MemClock {
    ghost use Rattle.std.specs.Prelude.{Some, None};

    ghost moments = { λ c. record { ahead = Some c; noted = None } };

    fn now(&mut self) -> u64 {
        let now = self.moments[self.at];
        if self.moments.len() - self.at > 1 {
            self.at += 1;
        }
        now
    }
}

/// A clock that stands: it answers one moment again and again, and makes clocks that do. For tests.
#[derive(Clone, Copy, Debug, Drop)]
pub struct StillClock {
    pub moment: u64,
}

impl Clock for StillClock {
    ghost use Rattle.std.specs.Prelude.{◌∷◌, [], Some, None};

    ghost moments = { λ c. record { ahead = Some (c.moment ∷ []); noted = None } };

    fn now(&mut self) -> u64 {
        self.moment
    }
}

impl Clocks for StillClock {
    type Of = StillClock;

    fn clock(&self) -> StillClock
        ensures { result ≡ self.now }
    {
        *self
    }
}
