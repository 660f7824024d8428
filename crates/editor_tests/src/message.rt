use http_in::Request;
use pg_text::{Bytes, Listed, Text};
use std::alloc::{AllocError, Global};

/// A message in short: its method, target and body.
#[derive(Clone, Copy)]
pub struct Said<'a>(pub &'a str, pub &'a str, pub &'a [u8]);

/// The request that says this. An editor looks at these three parts alone.
pub fn request(alloc: Global, said: &Said<'_>) -> Result<Request, AllocError> {
    let method = Text::copy_of(alloc, said.0)?;
    let target = Text::copy_of(alloc, said.1)?;
    let cookie = Text::copy_of(alloc, "")?;
    let body = Bytes::copy_of(alloc, said.2)?;
    Ok(Request {
        method,
        target,
        path: None,
        query: None,
        fields: Listed::empty(alloc),
        params: Listed::empty(alloc),
        cookie,
        body,
        close: false,
    })
}
