ghost use Rattle.std.specs.Prelude.{◌≡◌, Some, true, slice_get, IfOk};
ghost use Rattle.tree_site.specs.Prepared.{IsFit, ReplyAt, session_of};

use pg_value::is_too_large;
use site_words::{AppReply, AppStep, Fresh};
use std::alloc::AllocError;

/// What a step is answered: one on the application's attributes, or a new session.
#[derive(Drop)]
pub enum Prepared {
    Reply(AppReply),
    Session(Fresh),
}

// Whether a reply is one to this step, and its value keeps the limits of a value.
fn is_fit(step: &AppStep, reply: &AppReply) -> bool
    ensures { result ≡ true → IsFit step.now reply.now }
{
    match (step, reply) {
        (AppStep::Get(_), AppReply::Value(value)) => !is_too_large(value),
        (AppStep::Ensure(..), AppReply::Value(value)) => !is_too_large(value),
        (AppStep::All, AppReply::Value(value)) => !is_too_large(value),
        (AppStep::Set(..), AppReply::Done) => true,
        (AppStep::Remove(_), AppReply::Done) => true,
        (AppStep::Ensure(..), AppReply::Created) => true,
        (AppStep::All, AppReply::Large { .. }) => true,
        _ => false,
    }
}

fn copied(reply: &AppReply) -> Result<AppReply, AllocError>
    ensures { IfOk result (λ copy. copy ≡ reply.now) }
{
    match reply {
        AppReply::Value(value) => Ok(AppReply::Value(value.copy()?)),
        AppReply::Done => Ok(AppReply::Done),
        AppReply::Created => Ok(AppReply::Created),
        AppReply::Large { weight } => Ok(AppReply::Large { weight: *weight }),
    }
}

/// The answer at this index, where it is one to this step; an answer that isn't is as none.
pub(crate) fn reply_at(
    answers: &[Prepared],
    at: usize,
    step: &AppStep,
) -> Result<AppReply, AllocError>
    ensures { IfOk result (ReplyAt answers.now at step.now) }
{
    let Some(Prepared::Reply(reply)) = answers.get(at) else {
        return Err(AllocError);
    };
    if !is_fit(step, reply) {
        return Err(AllocError);
    }
    copied(reply)
}

/// The session at this index, where one is prepared there.
pub(crate) fn session_at(answers: &[Prepared], at: usize) -> Result<Fresh, AllocError>
    ensures { IfOk result (λ fresh. slice_get answers.now at ≡ Some (session_of fresh)) }
{
    let Some(Prepared::Session(fresh)) = answers.get(at) else {
        return Err(AllocError);
    };
    Ok(Fresh {
        session: fresh.session,
        id: fresh.id.copy()?,
    })
}
