ghost use Rattle.std.specs.Prelude.{◌≡◌, true, IfOk, IsOk};
ghost use Rattle.site_words.specs.Copies.{is_end};

use crate::words::{AppReply, Reply};
use std::alloc::AllocError;

// An equal answer of a step.
fn copy_answer(answer: &AppReply) -> Result<AppReply, AllocError>
    ensures { IfOk result (λ copy. copy ≡ answer.now) }
{
    match answer {
        AppReply::Value(value) => Ok(AppReply::Value(value.copy()?)),
        AppReply::Done => Ok(AppReply::Done),
        AppReply::Created => Ok(AppReply::Created),
        AppReply::Large { weight } => Ok(AppReply::Large { weight: *weight }),
    }
}

/// An equal reply. That of an End or an Abandon takes no memory.
pub fn copy_reply(reply: &Reply) -> Result<Reply, AllocError>
    ensures copy { IfOk result (λ copy. copy ≡ reply.now) }
    ensures last { is_end reply.now ≡ true → IsOk result }
{
    match reply {
        Reply::Published { version, dirty } => match dirty.copy() {
            Ok(dirty) => Ok(Reply::Published {
                version: *version,
                dirty,
            }),
            Err(fault) => Err(fault),
        },
        Reply::App(answer) => match copy_answer(answer) {
            Ok(answer) => Ok(Reply::App(answer)),
            Err(fault) => Err(fault),
        },
        Reply::Begun {
            request,
            version,
            session,
        } => Ok(Reply::Begun {
            request: *request,
            version: *version,
            session: *session,
        }),
        Reply::Made { session } => Ok(Reply::Made { session: *session }),
        Reply::Fetched { hit } => Ok(Reply::Fetched { hit: *hit }),
        Reply::Offered { kept } => Ok(Reply::Offered { kept: *kept }),
        Reply::Ended => Ok(Reply::Ended),
        Reply::Dropped => Ok(Reply::Dropped),
        Reply::Snapped { version, session } => Ok(Reply::Snapped {
            version: *version,
            session: *session,
        }),
        Reply::Rolled => Ok(Reply::Rolled),
    }
}
