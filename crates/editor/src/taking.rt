ghost use Rattle.std.specs.Prelude.{◌≡◌, ◌<◌, ◌++◌, ◌∷◌, [], Some, IsSome, OnOk, OnErr};
ghost use Rattle.pg_text.specs.Failure.{Answers};
ghost use Rattle.site_words.specs.Answers.{IsSamePort};
ghost use Rattle.editor.specs.Message.{message};
ghost use Rattle.editor.specs.Taking.{IsChanged, Publishes, Takes, changed, drafted, fault_of};

use crate::message::{Message, read_message};
use crate::{Draft, EditorAnswer, EditorFault};
use http_in::Request;
use pg_text::Failure;
use site_words::{Acted, Compiled, Port, Refusal};
use source_tree::Edit;
use std::alloc::Global;

/// Does what a request says to an editor: it changes the draft, or publishes it. After a fault, and
/// where memory runs out, the draft stands as it was.
pub fn take<P: Compiled, Q: Port<P>>(
    alloc: Global,
    draft: &mut Draft,
    request: &Request,
    port: &mut Q,
) -> Result<EditorAnswer, Failure<EditorFault>>
    requires pass { Q.pass port.old < (Q.opening port.old).passes }
    ensures same { IsSamePort (Q.pass port.old) (Q.pass port.new) (Q.opening port.old) (Q.opening port.new)
        (Q.home port.old) (Q.home port.new) }
    ensures taken { Takes P.needs (Q.opening port.old) (Q.pass port.old) (message request.now)
        draft.old draft.new (Q.seen port.old) (Q.seen port.new) result }
{
    port.law();
    match read_message(alloc, request) {
        Ok(Message::Change(edit)) => Ok(EditorAnswer::Drafted(add(draft, edit)?)),
        Ok(Message::Publish(base)) => publish(draft, base, port),
        Err(failure) => Err(failure),
    }
}

/// Does what a request says to a draft that isn't published, and answers the number of its edits.
/// Any other message is none.
pub fn change(
    alloc: Global,
    draft: &mut Draft,
    request: &Request,
) -> Result<u64, Failure<EditorFault>>
    ensures answer { Answers (changed (message request.now) draft.old) result }
    ensures draft { IsChanged (message request.now) draft.old draft.new result }
{
    match read_message(alloc, request)? {
        Message::Change(edit) => add(draft, edit),
        Message::Publish(_) => Err(Failure::Fault(EditorFault::BadMessage)),
    }
}

// Adds an edit to a draft, where it has room, and answers the number of its edits.
fn add(draft: &mut Draft, edit: Edit) -> Result<u64, Failure<EditorFault>>
    ensures answer { Answers (drafted draft.old edit) result }
    ensures ok { OnOk result (draft.new ≡ draft.old ++ edit ∷ []) }
    ensures err { OnErr result (draft.new ≡ draft.old) }
{
    if !draft.has_room(&edit) {
        return Err(Failure::Fault(EditorFault::DraftTooLarge));
    }
    draft.push(edit)?;
    Ok(draft.len() as u64)
}

// Publishes a draft, which is empty then.
fn publish<P: Compiled, Q: Port<P>>(
    draft: &mut Draft,
    base: Option<u64>,
    port: &mut Q,
) -> Result<EditorAnswer, Failure<EditorFault>>
    requires pass { Q.pass port.old < (Q.opening port.old).passes }
    ensures same { IsSamePort (Q.pass port.old) (Q.pass port.new) (Q.opening port.old) (Q.opening port.new)
        (Q.home port.old) (Q.home port.new) }
    ensures published { Publishes P.needs (Q.opening port.old) (Q.pass port.old) base draft.old draft.new
        (Q.seen port.old) (Q.seen port.new) result }
{
    match port.publish(base, draft.edits()) {
        Acted::Did(published) => {
            draft.clear();
            Ok(EditorAnswer::Published(published))
        }
        Acted::Refused(refusal) => Err(Failure::Fault(fault_of(refusal))),
        Acted::NoMemory => Err(Failure::NoMemory),
    }
}

// How the refusal of a publishing is told.
fn fault_of(refusal: Refusal) -> EditorFault
    requires { IsSome (fault_of refusal) }
    ensures { fault_of refusal ≡ Some result }
{
    match refusal {
        Refusal::Stale { latest } => EditorFault::Stale { latest },
        Refusal::TreeTooLarge(fault) => EditorFault::TreeTooLarge(fault),
        Refusal::JournalFull { weight, promised } => EditorFault::JournalFull { weight, promised },
        Refusal::Busy { .. } => unreachable!(),
    }
}
