ghost use Rattle.edges.specs.Clock.{Answers, Moments};

/// Where the moments of requests come from, in seconds.
pub trait Clock {
    /// The moments still to be answered, at least one, of which the last stays; and those answered
    /// so far. A clock may tell either, both or none.
    ghost moments: { Self → Moments };

    fn now(&mut self) -> u64
        ensures { Answers (moments self.old) (moments self.new) result };
}

/// What makes a clock for each connection.
pub trait Clocks {
    type Of: Clock + Send + Drop;

    fn clock(&self) -> Self::Of;
}
