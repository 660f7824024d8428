ghost use Rattle.std.specs.Prelude.{◌≡◌, ◌≤◌, true, OnErr, IfOk, Some};
ghost use Rattle.std.specs.Option.{option_map};
ghost use Rattle.edges.specs.Faults.{Rose};
ghost use Rattle.http_in.specs.declared.fault.HttpFault.{HttpFault};
ghost use Rattle.http_out.specs.Sent.{Sent};
ghost use Rattle.conversation.specs.Refusal.{IsShown, Refuses, refusal, status_and_line};

use crate::ended::Ended;
use edges::Sink;
use http_in::HttpFault;
use http_out::{Status, tell_plain};
use std::alloc::{AllocError, Global};

/// Answers a fault of reading where it has an answer, and ends.
#[cold]
#[inline(never)]
pub(crate) fn refuse<K: Sink>(alloc: Global, fault: HttpFault, sink: &mut K) -> Ended
    ensures ended { Refuses fault (K.taken sink.old) (K.taken sink.new) result }
    ensures shown { (told : HttpFault) → result ≡ Ended.Refused told → IsShown told }
    ensures read { result ≡ Ended.ReadFault → fault ≡ HttpFault.ReadFault }
    ensures later { K.faults sink.old ≤ K.faults sink.new }
    ensures write { result ≡ Ended.WriteFault → Rose (K.faults sink.old) (K.faults sink.new) }
{
    if fault == HttpFault::ReadFault {
        return Ended::ReadFault;
    }
    match tell(alloc, fault, sink) {
        Ok(false) => Ended::Refused(fault),
        Ok(true) => Ended::WriteFault,
        Err(AllocError) => Ended::NoMemory,
    }
}

// Writes the answer to a fault, and says whether the sink failed.
#[tactic(auto, unfolding(crate::specs::Refusal::refusal))]
fn tell<K: Sink>(alloc: Global, fault: HttpFault, sink: &mut K) -> Result<bool, AllocError>
    ensures sent { IfOk result (λ failed. Sent (K.taken sink.old) (K.taken sink.new) (refusal fault) failed) }
    ensures err { OnErr result (sink.new ≡ sink.old) }
    ensures later { K.faults sink.old ≤ K.faults sink.new }
    ensures rose { IfOk result (λ failed. failed ≡ true → Rose (K.faults sink.old) (K.faults sink.new)) }
{
    match status_and_line(fault) {
        Some((status, line)) => tell_plain(alloc, sink, status, true, line, true),
        None => Ok(false),
    }
}

// The status and the line of a fault that has an answer.
fn status_and_line(fault: HttpFault) -> Option<(Status, &'static [u8])>
    ensures { option_map (λ answer. (answer.0, answer.1.now)) result ≡ status_and_line fault }
{
    match fault {
        HttpFault::HeadTooLarge => Some((Status::HeadTooLarge, b"HeadTooLarge")),
        HttpFault::BadHead => Some((Status::BadRequest, b"BadHead")),
        HttpFault::WrongVersion => Some((Status::VersionNotSupported, b"WrongVersion")),
        HttpFault::ChunkedRequest => Some((Status::NotImplemented, b"ChunkedRequest")),
        HttpFault::BadLength => Some((Status::BadRequest, b"BadLength")),
        HttpFault::BodyTooLarge => Some((Status::ContentTooLarge, b"BodyTooLarge")),
        HttpFault::CutOff | HttpFault::ReadFault => None,
    }
}
