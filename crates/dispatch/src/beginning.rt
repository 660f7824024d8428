// What a request keeps when it has just begun.
ghost use Rattle.std.specs.Prelude.{IfOk};
ghost use Rattle.dispatch.specs.Begun.{IsBegun};

use http_out::{Head, Status};
use out_buffer::Writer;
use pg_value::Attrs;
use request_pages::{Incoming, RequestState};
use run_world::Around;
use scopes::Scopes;
use std::alloc::{AllocError, Global};

/// What a request keeps that has just begun, with the session that it found.
#[inline(always)]
pub(crate) fn begin_state(
    alloc: Global,
    incoming: Incoming,
    session: Option<u64>,
    attrs: Attrs,
) -> Result<RequestState, AllocError>
    ensures { IfOk result (λ state. IsBegun incoming.entry.request.now.cookie session attrs
        incoming.entry.close incoming.entry.shown state) }
{
    let (id, attrs) = match session {
        Some(_) => (Some(incoming.request.cookie.copy()?), Some(attrs)),
        None => (None, None),
    };
    Ok(RequestState {
        scopes: Scopes::new(alloc, attrs)?,
        writer: Writer::new(
            alloc,
            Head::of(Status::Ok, incoming.close),
            None,
            true,
            incoming.shown,
        ),
        around: Around {
            depth: 0,
            visits: 0,
            charge: 0,
            id,
            fresh: false,
            exception: None,
        },
    })
}
