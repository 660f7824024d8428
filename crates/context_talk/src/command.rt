ghost use Rattle.std.specs.Prelude.{◌≡◌, ◌≢◌, ◌⊎◌, ℕ, List, Some, None, map, string_bytes, IfOk};
ghost use Rattle.context_talk.specs.Contexts.{HasTalkedAmong, asked, first_sites};
ghost use Rattle.conversation.specs.declared.ended.Ended.{Ended as Outcome};
ghost use Rattle.edges.specs.Faults.{Rose};
ghost use Rattle.pages_talk.specs.Play.{exit_status};

use crate::connection::talk_contexts;
use crate::first_sites::FirstSites;
use crate::words::words_told;
use compiled_pages::Made;
use context_names::{ContextNames, PortList, read_names};
use contexts::start;
use conversation::Ended;
use edges::{Clock, Ledger, Sink, Source, Steps};
use site_core::SoloPort;
use std::alloc::{AllocError, Global};
use talk_words::Role;

/// Runs one connection over contexts without files, and answers the program's status: 0 where it is
/// done, 1 for other words, 2 where the bytes show a fault, 3 and 4 where reading or writing
/// failed, and 5 where memory ran out. The words are `contexts` and the contexts' names, joined
/// by commas, or these, `--seed` and 64 hexadecimal digits; without them the seed is 32 zeros.
pub fn play_contexts<S: Source, K: Sink, C: Clock, L: Ledger>(
    alloc: Global,
    words: &[String],
    source: &mut S,
    sink: &mut K,
    clock: &mut C,
    steps: &mut Steps<L>,
) -> u8
    ensures talk { (names : List (List ℕ)) (seed : List ℕ) → asked (map string_bytes words.now)
        ≡ Some (names, seed)
        → (ended : Outcome) × (result ≡ exit_status ended)
        × HasTalkedAmong names seed (C.moments clock.old) (C.moments clock.new) steps.old steps.new
        (S.left source.old) (S.left source.new) (K.faults sink.old) (K.faults sink.new) (K.taken sink.old)
        (K.taken sink.new) ended }
    ensures words { asked (map string_bytes words.now) ≡ None → (result ≡ 1) ⊎ (result ≡ 5) }
    ensures only_words { result ≡ 1 → asked (map string_bytes words.now) ≡ None }
    ensures silent { asked (map string_bytes words.now) ≡ None
        → (source.new ≡ source.old) × (sink.new ≡ sink.old) × (clock.new ≡ clock.old) × (steps.new
        ≡ steps.old) }

    ensures read { result ≡ 3 → Rose (S.faults source.old) (S.faults source.new) }
    ensures write { result ≡ 4 → Rose (K.faults sink.old) (K.faults sink.new) }
    ensures unfailing { S.unfailing source.old → (result ≢ 3) × S.unfailing source.new }
{
    let Some(told) = words_told(words) else {
        return 1;
    };
    let seed = told.1;
    let names = match read_names(alloc, told.0) {
        Ok(Some(names)) => names,
        Ok(None) => return 1,
        Err(AllocError) => return 5,
    };
    let sites = FirstSites {
        names: &names,
        seed,
    };
    match play_alone(alloc, sites, source, sink, clock, steps) {
        Ended::Done => 0,
        Ended::Refused(_) => 2,
        Ended::ReadFault => 3,
        Ended::WriteFault => 4,
        Ended::NoMemory => 5,
    }
}

// Runs one connection over the contexts with these sites.
fn play_alone<S: Source, K: Sink, C: Clock, L: Ledger>(
    alloc: Global,
    sites: FirstSites,
    source: &mut S,
    sink: &mut K,
    clock: &mut C,
    steps: &mut Steps<L>,
) -> Ended
    ensures talk { HasTalkedAmong sites.entry.names.now sites.entry.seed (C.moments clock.old)
        (C.moments clock.new) steps.old steps.new (S.left source.old) (S.left source.new) (K.faults sink.old)
        (K.faults sink.new) (K.taken sink.old) (K.taken sink.new) result }
    ensures read { result ≡ Ended.ReadFault → Rose (S.faults source.old) (S.faults source.new) }
    ensures write { result ≡ Ended.WriteFault → Rose (K.faults sink.old) (K.faults sink.new) }
    ensures unfailing { S.unfailing source.old → (result ≢ Ended.ReadFault) × S.unfailing source.new }
{
    let FirstSites { names, seed } = sites;
    let Ok(mut ports) = ports_of(alloc, names, seed) else {
        return Ended::NoMemory;
    };
    talk_contexts(
        alloc,
        names,
        &mut ports,
        Role::Both,
        source,
        sink,
        clock,
        steps,
    )
}

// The ports of contexts without files.
fn ports_of(
    alloc: Global,
    names: &ContextNames,
    seed: [u8; 32],
) -> Result<PortList<SoloPort<Made>>, AllocError>
    ensures { IfOk result (λ list. map (λ port. port.actor.site) list.ports.items ≡ first_sites names.now seed) }
{
    start(alloc, names, seed, 1)?.ports()
}
