//! The bytes of responses of HTTP/1.1.
//!
//! A response is written whole, with its length in its head, or in chunks while it is made. Each
//! call writes to a sink that may have failed already in this response: then it writes nothing
//! more, and its clause still says what text was to come.
#![tactic(auto)]

mod chunk;
mod content_type;
mod full;
mod head;
mod law;
mod methods;
mod no_memory;
mod sending;
mod status;
mod text;
mod whole;

pub use chunk::{write_chunk, write_end};
pub use content_type::ContentType;
pub use full::full_line;
pub use head::{Head, PLAIN_TYPE};
pub use law::parts_join;
pub use methods::{shows_body, takes_method};
pub use no_memory::write_no_memory;
pub use sending::write;
pub use status::Status;
pub use whole::{tell_plain, write_head, write_whole};
