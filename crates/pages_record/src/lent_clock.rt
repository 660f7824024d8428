use edges::Clock;

/// A clock that is lent.
#[derive(Drop)]
pub(crate) struct LentClock<'a, C: Clock> {
    pub(crate) clock: &'a mut C,
}

impl<'a, C: Clock> Clock for LentClock<'a, C> {
    ghost moments = { λ lent. C.moments lent.clock.now };

    fn now(&mut self) -> u64 {
        self.clock.now()
    }
}
