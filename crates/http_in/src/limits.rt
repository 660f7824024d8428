/// The most bytes that a head may have, with the pairs before its first line.
pub const MAX_HEAD_BYTES: usize = 16_384;
/// The most fields of a head.
pub const MAX_FIELDS: usize = 64;
/// The most bytes of a body.
pub const MAX_BODY_BYTES: u64 = 2_097_152;
/// The most bytes that one call of a source is asked for.
pub const MAX_PIECE_BYTES: usize = 4_096;
/// The bytes of a session's id.
pub const SESSION_ID_BYTES: usize = 48;
