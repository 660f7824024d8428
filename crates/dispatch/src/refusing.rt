// Plain answers to requests that aren't begun.
ghost use Rattle.std.specs.Prelude.{◌≡◌, ◌≤◌, ℕ, true, false, IfOk};
ghost use Rattle.conversation.specs.Served.{Served};
ghost use Rattle.dispatch.specs.Refused.{IsTurnedAway};
ghost use Rattle.edges.specs.Faults.{Rose};
ghost use Rattle.http_out.specs.Full.{full_line};
ghost use Rattle.page_answers.specs.Answers.{Answers};
ghost use Rattle.http_out.specs.Methods.{takes_method};
ghost use Rattle.page_answers.specs.Dropped.{Drops};
ghost use Rattle.page_answers.specs.Standing.{Standing};
ghost use Rattle.site_words.specs.Answers.{IsFull};
ghost use Rattle.site_words.specs.Trees.{Needs};
ghost use Rattle.site_words.specs.declared.words.Opening.{Opening};

use conversation::{Outcome, tell};
use edges::Sink;
use http_in::Request;
use http_out::{Status, full_line};
use site_words::Refusal;
use std::alloc::{AllocError, Global};

/// Answers a request of a method that no page takes.
#[cold]
#[inline(never)]
pub(crate) fn not_taken<K: Sink>(
    alloc: Global,
    request: &Request,
    close: bool,
    sink: &mut K,
) -> Outcome
    requires other { takes_method request.now.method ≡ false }
    ensures served { (needs : Needs) (x : Opening) (pass : ℕ) (at : Standing) →
        Served (λ close old e new. Answers needs x pass e.request close old e.text e.broken new)
        (λ close old asked text new. Drops needs x pass asked close old text new)
        close request.now at at (K.faults sink.old) (K.faults sink.new) (K.taken sink.old) (K.taken sink.new) result }
    ensures later { K.faults sink.old ≤ K.faults sink.new }
    ensures failed { result ≡ Outcome.WriteFault → Rose (K.faults sink.old) (K.faults sink.new) }
{
    let line = b"MethodNotAllowed";
    tell(alloc, request, close, Status::MethodNotAllowed, line, sink)
}

/// Answers a request for which the journal had no room.
#[cold]
#[inline(never)]
pub(crate) fn full<K: Sink>(
    alloc: Global,
    refusal: &Refusal,
    request: &Request,
    close: bool,
    sink: &mut K,
) -> Outcome
    requires taken { takes_method request.now.method ≡ true }
    requires full { IsFull refusal.now }
    ensures served { (needs : Needs) (x : Opening) (pass : ℕ) (old new : Standing) →
        IsTurnedAway needs x pass request.now refusal.now old new →
        Served (λ close old e new. Answers needs x pass e.request close old e.text e.broken new)
        (λ close old asked text new. Drops needs x pass asked close old text new)
        close request.now old new (K.faults sink.old) (K.faults sink.new) (K.taken sink.old) (K.taken sink.new) result }
    ensures later { K.faults sink.old ≤ K.faults sink.new }
    ensures failed { result ≡ Outcome.WriteFault → Rose (K.faults sink.old) (K.faults sink.new) }
{
    let Ok(line) = refusal_line(alloc, refusal) else {
        return Outcome::NoMemory;
    };
    let status = Status::ServiceUnavailable;
    tell(alloc, request, close, status, &line, sink)
}

/// The line of a refusal that tells a full journal.
pub fn refusal_line(alloc: Global, refusal: &Refusal) -> Result<Vec<u8>, AllocError>
    requires full { IsFull refusal.now }
    ensures line { (weight promised : ℕ) → refusal.now ≡ Refusal.JournalFull weight promised →
        IfOk result (λ line. line.items ≡ full_line weight promised) }
{
    let Refusal::JournalFull { weight, promised } = refusal else {
        unreachable!()
    };
    full_line(alloc, *weight, *promised)
}
