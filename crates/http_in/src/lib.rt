//! Requests of HTTP/1.1, read from a source in whatever pieces it gives its bytes.
//!
//! Requests stand one after the other. CR LF pairs before the first line of a request are skipped;
//! its head ends with the first CR LF CR LF after them, and its body has the size that the head
//! names.
#![tactic(auto)]

mod cookie;
mod fault;
mod fields;
mod head;
mod head_end;
mod law;
mod limits;
mod lookups;
mod params;
mod read;
mod read_buffer;
mod request;
mod rest;
mod scan;
mod target;
mod text;
mod trim;

pub use fault::HttpFault;
pub use fields::Field;
pub use law::one_cut;
pub use limits::{MAX_BODY_BYTES, MAX_FIELDS, MAX_HEAD_BYTES, MAX_PIECE_BYTES, SESSION_ID_BYTES};
pub use params::{Param, query_params};
pub use read::read_request;
pub use request::Request;
pub use rest::Rest;
