//! The limit of a context.

/// The greatest weight of the journal of a context's site.
pub const CONTEXT_JOURNAL_LIMIT: u64 = 134_217_728;
