ghost use Rattle.std.specs.Prelude.{◌≡◌, ◌≢◌, ℕ, List, Some, None, map, string_bytes};
ghost use Rattle.conversation.specs.declared.ended.Ended.{Ended as Outcome};
ghost use Rattle.edges.specs.Faults.{Rose};
ghost use Rattle.pages_talk.specs.Play.{exit_status};
ghost use Rattle.preview.specs.Play.{HasPlayed, seed_asked};

use crate::connection::preview;
use conversation::Ended;
use edges::{Ledger, Sink, Source, Steps};
use pages_talk::{seed_of, start_alone};
use std::alloc::Global;

/// Runs one preview connection over a site without files, and answers the program's status: 0 where
/// it is done, 1 for other words, 2 where the bytes show a fault, 3 and 4 where reading or writing
/// failed, and 5 where memory ran out. The words are `preview`, or `preview`, `--seed` and 64
/// hexadecimal digits; without them the seed is 32 zeros.
pub fn preview_play<S: Source, K: Sink, L: Ledger>(
    alloc: Global,
    words: &[String],
    source: &mut S,
    sink: &mut K,
    steps: &mut Steps<L>,
) -> u8
    ensures talk { (seed : List ℕ) → seed_asked (map string_bytes words.now) ≡ Some seed
        → (ended : Outcome) × (result ≡ exit_status ended)
        × HasPlayed seed steps.old steps.new (S.left source.old) (S.left source.new)
        (K.faults sink.old) (K.faults sink.new) (K.taken sink.old) (K.taken sink.new) ended }
    ensures words { seed_asked (map string_bytes words.now) ≡ None → result ≡ 1 }
    ensures only_words { result ≡ 1 → seed_asked (map string_bytes words.now) ≡ None }
    ensures silent { result ≡ 1
        → (source.new ≡ source.old) × (sink.new ≡ sink.old) × (steps.new ≡ steps.old) }

    // A fault of the outside is told only where it was counted.
    ensures read { result ≡ 3 → Rose (S.faults source.old) (S.faults source.new) }
    ensures write { result ≡ 4 → Rose (K.faults sink.old) (K.faults sink.new) }
    ensures unfailing { S.unfailing source.old → (result ≢ 3) × S.unfailing source.new }
{
    let Some(seed) = seed_asked(words) else {
        return 1;
    };
    match preview_alone(alloc, seed, source, sink, steps) {
        Ended::Done => 0,
        Ended::Refused(_) => 2,
        Ended::ReadFault => 3,
        Ended::WriteFault => 4,
        Ended::NoMemory => 5,
    }
}

// Runs one preview connection over a site without files that has this seed.
fn preview_alone<S: Source, K: Sink, L: Ledger>(
    alloc: Global,
    seed: [u8; 32],
    source: &mut S,
    sink: &mut K,
    steps: &mut Steps<L>,
) -> Ended
    ensures talk { HasPlayed seed steps.old steps.new (S.left source.old) (S.left source.new)
        (K.faults sink.old) (K.faults sink.new) (K.taken sink.old) (K.taken sink.new) result }
    ensures read { result ≡ Ended.ReadFault → Rose (S.faults source.old) (S.faults source.new) }
    ensures write { result ≡ Ended.WriteFault → Rose (K.faults sink.old) (K.faults sink.new) }
    ensures unfailing { S.unfailing source.old → (result ≢ Ended.ReadFault) × S.unfailing source.new }
{
    let Ok(mut port) = start_alone(alloc, seed) else {
        return Ended::NoMemory;
    };
    preview(alloc, &mut port, source, sink, steps)
}

// The seed that the words ask for, where they are those of this command.
fn seed_asked(words: &[String]) -> Option<[u8; 32]>
    ensures { result ≡ seed_asked (map string_bytes words.now) }
{
    match words {
        [word] if word.as_str() == "preview" => Some([0; 32]),
        [word, option, digits] if word.as_str() == "preview" && option.as_str() == "--seed" => {
            seed_of(digits.as_str())
        }
        _ => None,
    }
}
