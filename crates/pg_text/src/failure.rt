use std::alloc::{AllocError, AllocFailed};

/// Why a call has no answer: it has a fault of its own, or memory ran out.
#[derive(Debug, Drop, PartialEq, Eq)]
pub enum Failure<E> {
    NoMemory,
    Fault(E),
}

impl<E> From<AllocError> for Failure<E> {
    ghost use Rattle.std.specs.Prelude.{◌≡◌};
    ghost use Rattle.pg_text.specs.declared.failure.Failure.TheVariants.{NoMemory};

    ghost from_gives = { λ _ failure. failure ≡ NoMemory };

    fn from(_: AllocError) -> Self {
        Failure::NoMemory
    }
}

impl<T: Drop, E> From<AllocFailed<T>> for Failure<E> {
    ghost use Rattle.std.specs.Prelude.{◌≡◌};
    ghost use Rattle.pg_text.specs.declared.failure.Failure.TheVariants.{NoMemory};

    ghost from_gives = { λ _ failure. failure ≡ NoMemory };

    fn from(_: AllocFailed<T>) -> Self {
        Failure::NoMemory
    }
}
