//! The limits of values.

/// The greatest weight of a value that is made or kept.
pub const MAX_WEIGHT: u64 = 1_048_576;

/// The greatest depth of a value that is made or kept.
pub const MAX_DEPTH: u32 = 32;

/// The greatest weight of a session's attributes, weighed as one record.
pub const MAX_SESSION_WEIGHT: u64 = 65_536;
