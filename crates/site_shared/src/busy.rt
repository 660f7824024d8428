ghost use Rattle.std.specs.Prelude.{◌≡◌};
ghost use Rattle.site_shared.specs.ReadBusy.{is_busy};

use site_words::{Acted, Refusal};

// Whether a request found its session held.
pub fn is_busy<A>(answer: &Acted<A, Refusal>) -> bool
    ensures { result ≡ is_busy answer.now }
{
    match answer {
        Acted::Did(_) => false,
        Acted::NoMemory => false,
        Acted::Refused(refusal) => match refusal {
            Refusal::Busy { .. } => true,
            Refusal::Stale { .. } => false,
            Refusal::TreeTooLarge(_) => false,
            Refusal::JournalFull { .. } => false,
        },
    }
}

// The request that holds the session, where a request found it held: the bell at which the pass
// sleeps. No clause speaks of it.
pub fn holder_of<A>(answer: &Acted<A, Refusal>) -> Option<u64> {
    match answer {
        Acted::Refused(Refusal::Busy { holder }) => Some(*holder),
        _ => None,
    }
}
