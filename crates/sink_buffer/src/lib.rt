//! Bytes on their way to a sink, gathered so that it is asked once for many small pieces.
#![tactic(auto)]

mod buffer;

pub use buffer::SinkBuffer;
