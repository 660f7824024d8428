ghost use Rattle.std.specs.Prelude.{◌≡◌, ◌≤◌, ℕ, List};
ghost use Rattle.edges.specs.Faults.{Rose};
ghost use Rattle.editor.specs.Message.{message};
ghost use Rattle.editor.specs.Taking.{IsDrafted};
ghost use Rattle.preview_words.specs.Previewed.{ServedEdited, preview_stand};
ghost use Rattle.site_words.specs.declared.words.Entry.{Entry};

use crate::incoming::Incoming;
use crate::telling::tell_edit;
use conversation::Outcome;
use edges::Sink;
use editor::{Draft, EditorAnswer, EditorFault, change};
use http_in::Request;
use pg_text::Failure;
use std::alloc::Global;

/// Has an editor's message change a draft, and tells what it came to.
pub(crate) fn edit<K: Sink>(
    alloc: Global,
    draft: &mut Draft,
    incoming: &Incoming,
    sink: &mut K,
) -> Outcome
    ensures served { (seen : List Entry) (steps : ℕ) → ServedEdited incoming.now.close incoming.now.request
        (preview_stand draft.old seen steps) (preview_stand draft.new seen steps)
        (K.faults sink.old) (K.faults sink.new) (K.taken sink.old) (K.taken sink.new) result }
    ensures later { K.faults sink.old ≤ K.faults sink.new }
    ensures failed { result ≡ Outcome.WriteFault → Rose (K.faults sink.old) (K.faults sink.new) }
{
    match drafted(alloc, draft, &incoming.request) {
        Ok(answer) => tell_edit(alloc, incoming, &Ok(answer), sink),
        Err(Failure::Fault(fault)) => tell_edit(alloc, incoming, &Err(fault), sink),
        Err(Failure::NoMemory) => Outcome::NoMemory,
    }
}

// Does what an editor's message says to a draft that isn't published.
fn drafted(
    alloc: Global,
    draft: &mut Draft,
    request: &Request,
) -> Result<EditorAnswer, Failure<EditorFault>>
    ensures drafts { (seen : List Entry) →
        IsDrafted (message request.now) draft.old draft.new seen seen result }
{
    match change(alloc, draft, request) {
        Ok(count) => Ok(EditorAnswer::Drafted(count)),
        Err(failure) => Err(failure),
    }
}
