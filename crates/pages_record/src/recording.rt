ghost use Rattle.std.specs.Prelude.{◌≡◌, ◌≢◌, ◌≤◌, ℕ, List, []};
ghost use Rattle.edges.specs.Faults.{Rose};
ghost use Rattle.connection_list.specs.List.{IsListOf};
ghost use Rattle.pages_record.specs.Once.{ComesOnce};
ghost use Rattle.pages_record.specs.Recorded.{Comes, ComesOn};
ghost use Rattle.pages_talk.specs.Play.{opening_of};

use crate::connection::talk_in_memory;
use crate::recorded::Recorded;
use compiled_pages::Made;
use connection_list::{first_connection, is_list};
use edges::{Clock, Failed, Ledger, Sink, Source, Steps};
use pages_talk::start_alone;
use pg_text::Failure;
use rollover::{Rolled, roll};
use site_core::{Site, into_site};
use std::alloc::Global;
use whole_input::read_up_to;

/// The most bytes of the input.
const MAX_INPUT_BYTES: usize = 67_108_864;

/// Records all connections of the input.
pub(crate) fn record<S: Source, K: Sink, C: Clock, L: Ledger>(
    alloc: Global,
    seed: [u8; 32],
    source: &mut S,
    sink: &mut K,
    clock: &mut C,
    steps: &mut Steps<L>,
) -> Recorded
    ensures comes { Comes (opening_of seed) (S.left source.old) (S.left source.new) (K.taken sink.old)
        (K.taken sink.new) steps.old steps.new result }
    ensures read { result ≡ Recorded.ReadFault → Rose (S.faults source.old) (S.faults source.new) }
    ensures write { result ≡ Recorded.WriteFault → Rose (K.faults sink.old) (K.faults sink.new) }
    ensures unfailing { S.unfailing source.old → (result ≢ Recorded.ReadFault) × S.unfailing source.new }
{
    let input = match read_up_to(alloc, source, MAX_INPUT_BYTES) {
        Ok(input) => input,
        Err(Failure::NoMemory) => return Recorded::NoMemory,
        Err(Failure::Fault(Failed)) => return Recorded::ReadFault,
    };
    if input.len() > MAX_INPUT_BYTES {
        return Recorded::NotListed;
    }
    if !is_list(&input) {
        return Recorded::NotListed;
    }
    let Ok(port) = start_alone(alloc, seed) else {
        return Recorded::NoMemory;
    };
    record_all(alloc, into_site(port), &input, sink, clock, steps)
}

// Records all connections of a list, one after the other.
fn record_all<K: Sink, C: Clock, L: Ledger>(
    alloc: Global,
    mut site: Site<Made>,
    input: &[u8],
    sink: &mut K,
    clock: &mut C,
    steps: &mut Steps<L>,
) -> Recorded
    requires one { site.opening.passes ≡ 1 }
    requires new { site.history ≡ [] }
    requires listed { (connections : List (List ℕ)) × IsListOf input.now connections }
    ensures comes { ComesOn site.opening input.now (K.taken sink.old) (K.taken sink.new) steps.old steps.new result }
    ensures write { result ≡ Recorded.WriteFault → Rose (K.faults sink.old) (K.faults sink.new) }
{
    let mut rest = input;
    'connections: while let Some((bytes, next)) = first_connection(rest) {
        match record_one(alloc, site, bytes, sink, clock, steps) {
            Ok(after) => site = after,
            Err(fault) => return fault,
        }
        rest = next;
    }
    Recorded::Done
}

// Records one connection to a site at its beginning, and gives the site that goes on.
fn record_one<K: Sink, C: Clock, L: Ledger>(
    alloc: Global,
    site: Site<Made>,
    bytes: &[u8],
    sink: &mut K,
    clock: &mut C,
    steps: &mut Steps<L>,
) -> Result<Site<Made>, Recorded>
    requires one { site.opening.passes ≡ 1 }
    requires new { site.history ≡ [] }
    ensures comes { ComesOnce site.opening bytes.now (K.taken sink.old) (K.taken sink.new) (K.faults sink.old)
        (K.faults sink.new) steps.old steps.new result }
    ensures later { K.faults sink.old ≤ K.faults sink.new }
{
    let Ok((site, talk)) = talk_in_memory(alloc, site, bytes, clock, steps) else {
        return Err(Recorded::NoMemory);
    };
    match roll(alloc, site, Some(&talk), sink) {
        Rolled::Done(next) => Ok(next),
        Rolled::WriteFault(_) => Err(Recorded::WriteFault),
        Rolled::Spent(_) => Err(Recorded::NoMemory),
        Rolled::NoMemory(_) => Err(Recorded::NoMemory),
    }
}
