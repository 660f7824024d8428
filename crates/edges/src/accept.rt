ghost use Rattle.edges.specs.Faults.{HasCause};

use crate::{Failed, Sink, Source};

/// What a listener gives: where a connection's bytes come from and go to, or the mark that its
/// round is over.
#[derive(Clone, Copy, Debug, Drop)]
pub enum Accepted<A, B, E> {
    Pair(A, B),
    Closed(E),
}

/// A listener, from which any number of threads take connections. It takes them in rounds, each of
/// as many as it was told, or one without an end.
pub trait Accept {
    type From: Source + Send + Drop;

    type Into: Sink + Send + Drop;

    /// The mark that a round is over. Nothing else gives one.
    type Closing: Send + Drop;

    /// Gives the next connection of this round, or the mark where the round is over. It counts each
    /// failure, and fails only where it counted one. The count may stop at `u64::MAX`.
    fn accept(
        &self,
        faults: &mut u64,
    ) -> Result<Accepted<Self::From, Self::Into, Self::Closing>, Failed>
        ensures { HasCause faults.old faults.new result };

    /// Begins a new round. It is called once every worker has the mark; no clause speaks of it.
    fn renew(&mut self);
}
