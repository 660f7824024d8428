ghost use Rattle.std.specs.Prelude.{◌≡◌, IfOk};
ghost use Rattle.std.specs.Option.{option_map};
ghost use Rattle.http_in.specs.Target.{before_query, path_in, query_of};
ghost use Rattle.percent_encoding.specs.Percent.{percent_decode};

use percent_encoding::percent_decode;
use pg_text::{Failure, Path, resolve};
use std::alloc::{AllocError, Global};

// What stands before the first question mark of a target, and what stands behind it, where there is
// one.
pub fn parts_of(target: &str) -> (&str, Option<&str>)
    ensures path { result.0.now ≡ before_query target.now }
    ensures query { option_map (λ query. query.now) result.1 ≡ query_of target.now }
{
    match target.split_once('?') {
        Some((path, query)) => (path, Some(query)),
        None => (target, None),
    }
}

// The path that stands before a query, where it is one. One without escapes is a text as it
// stands, and isn't copied.
pub fn decoded_path(alloc: Global, sent: &str) -> Result<Option<Path>, AllocError>
    ensures { IfOk result (λ path. path ≡ path_in (percent_decode sent.now)) }
{
    if !sent.as_bytes().contains(&b'%') {
        return path_at(alloc, sent);
    }
    let decoded = percent_decode(sent.as_bytes()).into_cow(alloc)?;
    path_in(alloc, &decoded)
}

// The path that bytes stand for, where they are a text and stand for one.
fn path_in(alloc: Global, bytes: &[u8]) -> Result<Option<Path>, AllocError>
    ensures { IfOk result (λ path. path ≡ path_in bytes.now) }
{
    match str::from_utf8(bytes) {
        Ok(text) => path_at(alloc, text),
        Err(_) => Ok(None),
    }
}

// The path that a text stands for, where it stands for one.
fn path_at(alloc: Global, text: &str) -> Result<Option<Path>, AllocError>
    ensures { IfOk result (λ path. path ≡ path_in text.now) }
{
    match resolve(alloc, None, text) {
        Ok(path) => Ok(Some(path)),
        Err(Failure::Fault(_)) => Ok(None),
        Err(Failure::NoMemory) => Err(AllocError),
    }
}
