ghost use Rattle.std.specs.Prelude.{◌≡◌, [], Some};
ghost use Rattle.std.specs.Option.{option_map};
ghost use Rattle.edges.specs.Clock.{Moments};

use crate::Clock;
use std::alloc::Global;
use std::marker::Model;

/// A clock over another that notes each moment as it is answered. Where memory for one runs out it
/// lets its notes go, and tells none from there on: what it tells is always whole.
#[derive(Drop)]
pub struct NotedClock<C: Clock> {
    inner: C,
    noted: Option<Vec<u64>>,
}

impl<C: Clock> Model for NotedClock<C> {
    ghost use Rattle.std.specs.Option.{option_map};
    ghost use Rattle.edges.specs.Clock.{Moments};

    ghost Value = { Moments };

    ghost view = { λ c. record { ahead = (C.moments c.inner).ahead; noted = option_map (λ moments. moments.items) c.noted } };
}

impl<C: Clock> NotedClock<C> {
    /// Answers what this clock does. Nothing is noted yet.
    pub fn new(alloc: Global, inner: C) -> Self
        ensures { result ≡ record { ahead = (C.moments inner).ahead; noted = Some [] } }
    {
        NotedClock {
            inner,
            noted: Some(Vec::new(alloc)),
        }
    }

    /// The moments answered so far, unless memory ran out for one of them.
    pub fn noted(&self) -> Option<&[u64]>
        ensures { option_map (λ moments. moments.now) result ≡ self.now.noted }
    {
        self.noted.as_deref()
    }
}

impl<C: Clock> Clock for NotedClock<C> {
    ghost moments = { λ c. c };

    fn now(&mut self) -> u64 {
        let now = self.inner.now();
        let is_kept = match &mut self.noted {
            Some(moments) => moments.push(now).is_ok(),
            None => false,
        };
        if !is_kept {
            self.noted = None;
        }
        now
    }
}
