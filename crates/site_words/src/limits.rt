//! The limits of a site.

/// The most passes of a site.
pub const MAX_PASSES: u8 = 64;

/// How many sessions a site has at most.
pub const MAX_SESSIONS: usize = 4_096;

/// The first number that a version, a count of requests or a count of sessions of an opening
/// doesn't reach.
pub const COUNT_END: u64 = 1 << 63;

/// The greatest weight of the journal of a site that a command begins.
pub const JOURNAL_LIMIT: u64 = 2_147_483_648;

/// How many seconds a session lasts that isn't used, where nothing else is said.
pub const IDLE_SECONDS: u64 = 1_800;

/// The most bytes of a cookie.
pub const MAX_COOKIE_BYTES: usize = 48;

/// What an operation weighs beside its texts and its values. A Roll alone weighs nothing.
pub const OP_WEIGHT: u64 = 64;

/// The weight that a request is promised when it begins.
pub const PROMISE: u64 = 4_325_376;

/// The weight that is kept of a promise for the request's end.
pub const END_WEIGHT: u64 = 65_600;

/// What the run of a page with the longest path is charged: a Fetch and an Offer, each of 64, 16
/// and the path.
pub const MAX_PAGE_CHARGE: u64 = 2_208;
