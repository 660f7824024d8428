ghost use Rattle.std.specs.Prelude.{◌≤◌, length, IfOk};
ghost use Rattle.http_in.specs.declared.limits.TheConstants.{SESSION_ID_BYTES};

use http_in::{Request, SESSION_ID_BYTES};
use pg_text::{Bytes, Listed, Text, resolve};
use std::alloc::Global;
use std::test::Fail;

/// A request in short: its method, its path and the id of its session, which is empty where there
/// is none. It doesn't ask to close.
pub fn request(alloc: Global, method: &str, path: &str, cookie: &str) -> Result<Request, Fail>
    ensures { IfOk result (λ request. length request.cookie ≤ SESSION_ID_BYTES) }
{
    if cookie.len() > SESSION_ID_BYTES {
        return Err(Fail::new("no session has so long an id"));
    }
    Ok(Request {
        method: Text::copy_of(alloc, method)?,
        target: Text::copy_of(alloc, path)?,
        path: resolve(alloc, None, path).ok(),
        query: None,
        fields: Listed::empty(alloc),
        params: Listed::empty(alloc),
        cookie: Text::copy_of(alloc, cookie)?,
        body: Bytes::copy_of(alloc, b"")?,
        close: false,
    })
}
