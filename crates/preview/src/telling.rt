// Plain answers.
ghost use Rattle.std.specs.Prelude.{◌≡◌, ◌≤◌, ℕ};
ghost use Rattle.conversation.specs.Told.{IsTold};
ghost use Rattle.edges.specs.Faults.{Rose};
ghost use Rattle.editor.specs.Telling.{fault_text};
ghost use Rattle.http_out.specs.Full.{full_line};
ghost use Rattle.http_out.specs.Methods.{shows_body};
ghost use Rattle.http_out.specs.Response.{plain};
ghost use Rattle.site_words.specs.Answers.{IsFull};
ghost use Rattle.talk_words.specs.Said.{told_text};

use crate::incoming::Incoming;
use conversation::{Outcome, shows_body};
use edges::Sink;
use editor::{EditorAnswer, EditorFault, fault_text};
use http_out::Status;
use pages_talk::{refusal_line, tell_editor};
use site_words::Refusal;
use source_tree::TreeFault;
use std::alloc::{AllocError, Global};

/// Gives a plain answer of one line.
pub(crate) fn tell<K: Sink>(
    alloc: Global,
    incoming: &Incoming,
    status: Status,
    line: &[u8],
    sink: &mut K,
) -> Outcome
    ensures told { IsTold (plain status incoming.now.close line.now (shows_body incoming.now.request.method))
        (K.taken sink.old) (K.taken sink.new) result }
    ensures later { K.faults sink.old ≤ K.faults sink.new }
    ensures failed { result ≡ Outcome.WriteFault → Rose (K.faults sink.old) (K.faults sink.new) }
{
    conversation::tell(alloc, &incoming.request, incoming.close, status, line, sink)
}

/// Tells an editor what a message came to.
pub(crate) fn tell_edit<K: Sink>(
    alloc: Global,
    incoming: &Incoming,
    told: &Result<EditorAnswer, EditorFault>,
    sink: &mut K,
) -> Outcome
    ensures told { IsTold (told_text told.now incoming.now.close (shows_body incoming.now.request.method))
        (K.taken sink.old) (K.taken sink.new) result }
    ensures later { K.faults sink.old ≤ K.faults sink.new }
    ensures failed { result ≡ Outcome.WriteFault → Rose (K.faults sink.old) (K.faults sink.new) }
{
    let shown = shows_body(&incoming.request);
    match tell_editor(alloc, told, incoming.close, shown, sink) {
        Ok(false) => Outcome::Whole,
        Ok(true) => Outcome::WriteFault,
        Err(AllocError) => Outcome::NoMemory,
    }
}

/// Tells that the journal has no room for a picture.
pub(crate) fn tell_full<K: Sink>(
    alloc: Global,
    incoming: &Incoming,
    refusal: &Refusal,
    sink: &mut K,
) -> Outcome
    requires full { IsFull refusal.now }
    ensures told { (weight promised : ℕ) → refusal.now ≡ Refusal.JournalFull weight promised
        → IsTold (plain Status.ServiceUnavailable incoming.now.close (full_line weight promised)
        (shows_body incoming.now.request.method)) (K.taken sink.old) (K.taken sink.new) result }
    ensures later { K.faults sink.old ≤ K.faults sink.new }
    ensures failed { result ≡ Outcome.WriteFault → Rose (K.faults sink.old) (K.faults sink.new) }
{
    let Ok(line) = refusal_line(alloc, refusal) else {
        return Outcome::NoMemory;
    };
    tell(alloc, incoming, Status::ServiceUnavailable, &line, sink)
}

/// Tells which limit the tree that a draft makes passes.
pub(crate) fn tell_fault<K: Sink>(
    alloc: Global,
    incoming: &Incoming,
    reason: TreeFault,
    sink: &mut K,
) -> Outcome
    ensures told { IsTold (plain Status.ContentTooLarge incoming.now.close
        (fault_text (EditorFault.TreeTooLarge reason)) (shows_body incoming.now.request.method))
        (K.taken sink.old) (K.taken sink.new) result }
    ensures later { K.faults sink.old ≤ K.faults sink.new }
    ensures failed { result ≡ Outcome.WriteFault → Rose (K.faults sink.old) (K.faults sink.new) }
{
    let Ok(line) = fault_text(alloc, EditorFault::TreeTooLarge(reason)) else {
        return Outcome::NoMemory;
    };
    tell(alloc, incoming, Status::ContentTooLarge, &line, sink)
}
