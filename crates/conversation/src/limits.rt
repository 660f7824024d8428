/// The most requests that one connection is answered.
pub const MAX_REQUESTS: u64 = 65_536;
