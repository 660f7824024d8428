/// The most edits of a draft.
pub const MAX_DRAFT_EDITS: usize = 1_024;
/// The most bytes of all texts of a draft together.
pub const MAX_DRAFT_BYTES: usize = 16_777_216;
