// Why a row has no answer.
use pg_text::{BadPath, Failure};
use std::alloc::{AllocError, AllocFailed};

/// Why a row has no answer: what is wrong with its words, or that memory ran out.
#[derive(Drop)]
pub enum Unreadable {
    NoMemory,
    Word(&'static str),
}

impl From<AllocError> for Unreadable {
    fn from(_: AllocError) -> Self {
        Unreadable::NoMemory
    }
}

impl<T: Drop> From<AllocFailed<T>> for Unreadable {
    fn from(_: AllocFailed<T>) -> Self {
        Unreadable::NoMemory
    }
}

impl From<Failure<BadPath>> for Unreadable {
    fn from(failure: Failure<BadPath>) -> Self {
        match failure {
            Failure::NoMemory => Unreadable::NoMemory,
            Failure::Fault(_) => Unreadable::Word("no path"),
        }
    }
}
