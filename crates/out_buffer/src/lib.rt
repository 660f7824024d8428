//! The writer of a page run: what a page puts goes into its buffer, is committed to a sink where
//! the buffer is full, or stays in a body that is kept.
#![tactic(auto)]

mod bodies;
mod buffer;
mod law;
mod stream;
mod writer;

pub use law::{no_piece_is_empty, output_is_kept, pieces_only_grow};
pub use pg_text::Failure;
pub use pg_value::RunFault;
pub use writer::{MAX_OUTPUT_BYTES, Writer};
