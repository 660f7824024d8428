ghost use Rattle.std.specs.Prelude.{◌≡◌};
ghost use Rattle.packed_entries.specs.Refs.{op_in};

use pg_text::Path;
use pg_value::Attrs;
use site_words::{AppStep, Op};
use source_tree::Edits;

/// An operation, read where it stands.
#[derive(Clone, Copy)]
pub enum OpRef<'a> {
    Publish { base: Option<u64>, edits: &'a Edits },
    Begin { cookie: &'a str, moment: u64 },
    App { request: u64, step: &'a AppStep },
    Fresh { request: u64 },
    Fetch { request: u64, path: &'a Path },
    Offer { request: u64, path: &'a Path },
    End { request: u64, attrs: &'a Attrs },
    Abandon { request: u64 },
    Snapshot { cookie: &'a str },
    Roll,
}

impl<'a> OpRef<'a> {
    /// This operation.
    pub fn of(op: &'a Op) -> Self
        ensures { op_in result ≡ op.now }
    {
        match op {
            Op::Publish { base, edits } => OpRef::Publish { base: *base, edits },
            Op::Begin { cookie, moment } => OpRef::Begin {
                cookie: cookie.as_str(),
                moment: *moment,
            },
            Op::App { request, step } => OpRef::App {
                request: *request,
                step,
            },
            Op::Fresh { request } => OpRef::Fresh { request: *request },
            Op::Fetch { request, path } => OpRef::Fetch {
                request: *request,
                path,
            },
            Op::Offer { request, path } => OpRef::Offer {
                request: *request,
                path,
            },
            Op::End { request, attrs } => OpRef::End {
                request: *request,
                attrs,
            },
            Op::Abandon { request } => OpRef::Abandon { request: *request },
            Op::Snapshot { cookie } => OpRef::Snapshot {
                cookie: cookie.as_str(),
            },
            Op::Roll => OpRef::Roll,
        }
    }
}
