ghost use Rattle.std.specs.Prelude.{◌≡◌};

use edges::{Accept, Accepted, Failed};
use site_rounds::Listeners;

/// A listener without rounds: its mark says only that no more connections come.
#[derive(Drop)]
pub struct Unmarked<A> {
    pub listener: A,
}

impl<A: Accept> Accept for Unmarked<A> {
    type From = A::From;

    type Into = A::Into;

    type Closing = ();

    fn accept(&self, faults: &mut u64) -> Result<Accepted<A::From, A::Into, ()>, Failed> {
        match self.listener.accept(faults)? {
            Accepted::Pair(from, into) => Ok(Accepted::Pair(from, into)),
            Accepted::Closed(_mark) => Ok(Accepted::Closed(())),
        }
    }

    fn renew(&mut self) {
        self.listener.renew();
    }
}

/// These listeners, without rounds.
pub(crate) fn without_rounds<A: Accept>(listeners: Listeners<A>) -> Listeners<Unmarked<A>>
    ensures readers { result.readers.listener ≡ listeners.readers }
    ensures editors { result.editors.listener ≡ listeners.editors }
{
    Listeners {
        readers: Unmarked {
            listener: listeners.readers,
        },
        editors: Unmarked {
            listener: listeners.editors,
        },
        previews: listeners.previews.map(|listener| Unmarked { listener }),
    }
}
