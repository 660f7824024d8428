use crate::{Listeners, Talks};

/// What a site is served with in a round: how connections are answered, where they come in, and the
/// clocks that they are given.
#[derive_where(Clone, Copy)]
pub struct Service<'a, T, A, W> {
    pub talks: &'a Talks<T>,
    pub listeners: &'a Listeners<A>,
    pub clocks: &'a W,
}
