ghost use Rattle.std.specs.Prelude.{◌≡◌, ◌≢◌, ℕ, List, Some, None, map, string_bytes};
ghost use Rattle.edges.specs.Faults.{Rose};
ghost use Rattle.pages_record.specs.Recorded.{Comes, exit_status};
ghost use Rattle.pages_record.specs.Words.{record_asked};
ghost use Rattle.pages_record.specs.declared.recorded.Recorded.{Recorded as Outcome};
ghost use Rattle.pages_talk.specs.Play.{opening_of};

use crate::recorded::Recorded;
use crate::recording::record;
use crate::words::record_asked;
use edges::{Clock, Ledger, Sink, Source, Steps};
use std::alloc::Global;

/// Records connections to a site without files. The input is a list of connections, each a line
/// with the number of its bytes, of 1 to 8 digits, and then these bytes; it has 67,108,864 bytes at
/// most, and is read whole before anything is written. The output is a journal for each connection,
/// one behind the other. The moments of all are those of this clock. The answer is the program's
/// status: 0 where each was recorded, 1 for other words, 2 where the input is no such list, 3 and 4
/// where reading or writing failed, and 5 where memory ran out, or a count of the site has come
/// to 2^63.
pub fn play_record<S: Source, K: Sink, C: Clock, L: Ledger>(
    alloc: Global,
    words: &[String],
    source: &mut S,
    sink: &mut K,
    clock: &mut C,
    steps: &mut Steps<L>,
) -> u8
    ensures recorded { (seed : List ℕ) → record_asked (map string_bytes words.now) ≡ Some seed →
        (ended : Outcome) × (result ≡ exit_status ended)
        × Comes (opening_of seed) (S.left source.old) (S.left source.new) (K.taken sink.old) (K.taken sink.new)
        steps.old steps.new ended }
    ensures words { record_asked (map string_bytes words.now) ≡ None → result ≡ 1 }
    ensures only_words { result ≡ 1 → record_asked (map string_bytes words.now) ≡ None }
    ensures silent { result ≡ 1 → (source.new ≡ source.old) × (sink.new ≡ sink.old) × (clock.new
        ≡ clock.old) × (steps.new ≡ steps.old) }

    ensures read { result ≡ 3 → Rose (S.faults source.old) (S.faults source.new) }
    ensures write { result ≡ 4 → Rose (K.faults sink.old) (K.faults sink.new) }
    ensures unfailing { S.unfailing source.old → (result ≢ 3) × S.unfailing source.new }
{
    let Some(seed) = record_asked(words) else {
        return 1;
    };
    match record(alloc, seed, source, sink, clock, steps) {
        Recorded::Done => 0,
        Recorded::NotListed => 2,
        Recorded::ReadFault => 3,
        Recorded::WriteFault => 4,
        Recorded::NoMemory => 5,
    }
}
