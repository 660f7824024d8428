//! The limits of a request's pages.

/// How many calls, includes, fragments and forwards may stand in one another.
pub const LEVEL_LIMIT: u32 = 100;

/// The most visits of a page with its forwards. An error page starts again at 0.
pub const VISIT_LIMIT: u32 = 1_000_000;

/// From which charge on nothing more may be asked.
pub const CHARGE_LIMIT: u64 = 1_048_576;
