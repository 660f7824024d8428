ghost use Rattle.std.specs.Prelude.{◌≡◌};
ghost use Rattle.std.specs.Bool.{Decides};
ghost use Rattle.packed_entries.specs.Refs.{op_in, reply_in};

use crate::same::Same;
use packed_entries::{OpRef, ReplyRef};

/// Whether two operations are the same.
pub(crate) fn same_op(one: OpRef<'_>, other: OpRef<'_>) -> bool
    ensures { Decides result (op_in one.entry ≡ op_in other.entry) }
{
    match one {
        OpRef::Publish { base, edits } => matches!(other,
            OpRef::Publish { base: other_base, edits: other_edits }
                if base.is_same(&other_base) && edits.is_same(other_edits)),
        OpRef::Begin { cookie, moment } => matches!(other,
            OpRef::Begin { cookie: other_cookie, moment: other_moment }
                if cookie == other_cookie && moment == other_moment),
        OpRef::App { request, step } => matches!(other,
            OpRef::App { request: other_request, step: other_step }
                if request == other_request && step.is_same(other_step)),
        OpRef::Fresh { request } => matches!(other,
            OpRef::Fresh { request: other_request } if request == other_request),
        OpRef::Fetch { request, path } => matches!(other,
            OpRef::Fetch { request: other_request, path: other_path }
                if request == other_request && path.is_same(other_path)),
        OpRef::Offer { request, path } => matches!(other,
            OpRef::Offer { request: other_request, path: other_path }
                if request == other_request && path.is_same(other_path)),
        OpRef::End { request, attrs } => matches!(other,
            OpRef::End { request: other_request, attrs: other_attrs }
                if request == other_request && attrs.is_same(other_attrs)),
        OpRef::Abandon { request } => matches!(other,
            OpRef::Abandon { request: other_request } if request == other_request),
        OpRef::Snapshot { cookie } => matches!(other,
            OpRef::Snapshot { cookie: other_cookie } if cookie == other_cookie),
        OpRef::Roll => matches!(other, OpRef::Roll),
    }
}

/// Whether two replies are the same.
pub(crate) fn same_reply(one: ReplyRef<'_>, other: ReplyRef<'_>) -> bool
    ensures { Decides result (reply_in one.entry ≡ reply_in other.entry) }
{
    match one {
        ReplyRef::Published { version, dirty } => matches!(other,
            ReplyRef::Published { version: other_version, dirty: other_dirty }
                if version == other_version && dirty.is_same(other_dirty)),
        ReplyRef::Begun {
            request,
            version,
            session,
        } => matches!(other,
            ReplyRef::Begun {
                request: other_request, version: other_version, session: other_session
            } if request == other_request
                && version == other_version
                && session.is_same(&other_session)),
        ReplyRef::App(answer) => matches!(other,
            ReplyRef::App(other_answer) if answer.is_same(other_answer)),
        ReplyRef::Made { session } => matches!(other,
            ReplyRef::Made { session: other_session } if session == other_session),
        ReplyRef::Fetched { hit } => matches!(other,
            ReplyRef::Fetched { hit: other_hit } if hit == other_hit),
        ReplyRef::Offered { kept } => matches!(other,
            ReplyRef::Offered { kept: other_kept } if kept == other_kept),
        ReplyRef::Ended => matches!(other, ReplyRef::Ended),
        ReplyRef::Dropped => matches!(other, ReplyRef::Dropped),
        ReplyRef::Snapped { version, session } => matches!(other,
            ReplyRef::Snapped { version: other_version, session: other_session }
                if version == other_version && session.is_same(&other_session)),
        ReplyRef::Rolled => matches!(other, ReplyRef::Rolled),
    }
}
