//! The limits of contexts.

/// How many contexts there are at most.
pub const MAX_CONTEXTS: usize = 16;

/// The most bytes of a context's name.
pub const MAX_CONTEXT_NAME_BYTES: usize = 32;
