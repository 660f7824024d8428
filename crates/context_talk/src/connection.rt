ghost use Rattle.std.specs.Prelude.{◌≡◌, ◌≢◌, ℕ, All, Some, length, map, IfOk, []};
ghost use Rattle.std.specs.List.{slice_get};
ghost use Rattle.context_talk.specs.Among.{TalkedAmong, connections_of};
ghost use Rattle.context_words.specs.Parts.{lent_of};
ghost use Rattle.conversation.specs.Refusal.{IsShown};
ghost use Rattle.edges.specs.Faults.{Rose};
ghost use Rattle.http_in.specs.declared.fault.HttpFault.{HttpFault};
ghost use Rattle.pass_course.specs.Course.{IsIdle};

use crate::desk::SiteDesk;
use compiled_pages::Made;
use context_desk::ContextDesk;
use context_names::{ContextNames, PortList};
use conversation::{Ended, walk};
use edges::{Clock, Ledger, Sink, Source, Steps};
use pages_talk::PortDesk;
use site_words::Port;
use std::alloc::{AllocError, Global};
use talk_words::Role;

/// Answers the requests of one connection to several contexts, each before it reads the next. Each
/// is answered over the port of its context alone; what each walks of its own is the law `shares`,
/// and what each site has seen the law `histories`.
pub fn talk_contexts<P: Port<Made>, S: Source, K: Sink, C: Clock, L: Ledger>(
    alloc: Global,
    names: &ContextNames,
    ports: &mut PortList<P>,
    role: Role,
    source: &mut S,
    sink: &mut K,
    clock: &mut C,
    steps: &mut Steps<L>,
) -> Ended
    requires ports { length ports.old.ports.items ≡ length names.now }
    requires idle { (context : ℕ) (port : P) → slice_get ports.old.ports.items context ≡ Some port
        → IsIdle (P.opening port) (P.pass port) (P.seen port) }
    ensures ports { length ports.new.ports.items ≡ length names.now }
    ensures idle { (context : ℕ) (port : P) → slice_get ports.new.ports.items context ≡ Some port
        → IsIdle (P.opening port) (P.pass port) (P.seen port) }

    // Each port is the same one still.
    ensures same { connections_of P.opening P.pass P.home role ports.new.ports.items
        ≡ connections_of P.opening P.pass P.home role ports.old.ports.items }

    // The sink took the answers to the requests that stand in the bytes that came, in their order,
    // and nothing else.
    ensures talk { TalkedAmong names.now (connections_of P.opening P.pass P.home role ports.old.ports.items)
        (map (λ (port : P). P.seen port) ports.old.ports.items)
        (map (λ (port : P). P.seen port) ports.new.ports.items)
        (lent_of (C.moments clock.old) steps.old) (lent_of (C.moments clock.new) steps.new)
        (S.left source.old) (S.left source.new) (K.faults sink.old) (K.faults sink.new) (K.taken sink.old)
        (K.taken sink.new) result }
    ensures shown { (fault : HttpFault) → result ≡ Ended.Refused fault → IsShown fault }

    // A fault of the outside is told only where it was counted.
    ensures read { result ≡ Ended.ReadFault → Rose (S.faults source.old) (S.faults source.new) }
    ensures write { result ≡ Ended.WriteFault → Rose (K.faults sink.old) (K.faults sink.new) }
    ensures unfailing { S.unfailing source.old → (result ≢ Ended.ReadFault) × S.unfailing source.new }
{
    let Ok(desks) = desks_of(alloc, names.len(), role) else {
        return Ended::NoMemory;
    };
    let mut desk = ContextDesk { names, desks };
    walk(alloc, &mut desk, ports, clock, steps, source, sink)
}

// So many desks of a connection that begins.
fn desks_of<P: Port<Made>, C: Clock, L: Ledger>(
    alloc: Global,
    count: usize,
    role: Role,
) -> Result<Vec<SiteDesk<P, C, L>>, AllocError>
    ensures count { IfOk result (λ desks. length desks.items ≡ count) }
    ensures fresh { IfOk result (λ desks. All (λ desk. (desk.desk.role ≡ role) × (desk.desk.draft ≡ []))
        desks.items) }
{
    let mut desks = Vec::with_capacity(alloc, count)?;
    for _ in 0..count {
        desks.push(SiteDesk {
            desk: PortDesk::new(alloc, role),
        })?;
    }
    Ok(desks)
}
