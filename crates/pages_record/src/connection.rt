ghost use Rattle.std.specs.Prelude.{◌≡◌, IfOk, Some, []};
ghost use Rattle.pages_record.specs.Recorded.{IsTalked, end_number};
ghost use Rattle.site_words.specs.Invariants.{AllRest};

use crate::lent_clock::LentClock;
use compiled_pages::Made;
use conversation::Ended;
use edges::{Clock, Ledger, MemSink, MemSource, NotedClock, Steps};
use pages_talk::{Role, talk};
use pg_text::{Bytes, Listed};
use site_core::{Site, into_site, solo};
use site_journal::Talk;
use std::alloc::{AllocError, Global};

/// The most bytes that are read at once.
const PIECE_BYTES: usize = 4_096;

/// Talks on a connection of these bytes with a site at its beginning, in memory, and gives the site
/// and what was said.
pub(crate) fn talk_in_memory<C: Clock, L: Ledger>(
    alloc: Global,
    site: Site<Made>,
    bytes: &[u8],
    clock: &mut C,
    steps: &mut Steps<L>,
) -> Result<(Site<Made>, Talk), AllocError>
    requires one { site.opening.passes ≡ 1 }
    requires new { site.history ≡ [] }
    ensures opening { IfOk result (λ done. done.0.opening ≡ site.opening) }
    ensures rest { IfOk result (λ done. AllRest done.0.opening done.0.history) }
    ensures bytes { IfOk result (λ done. done.1.bytes ≡ bytes.now) }
    ensures talked { IfOk result (λ done. IsTalked done.0.opening done.0.history done.1 steps.old steps.new) }
{
    let mut source = MemSource::new(Vec::from_slice(alloc, bytes)?, PIECE_BYTES, Vec::new(alloc));
    let mut sink = MemSink::new(alloc, Vec::new(alloc));
    let mut noted = NotedClock::new(alloc, LentClock { clock });
    let mut port = solo(site);
    let ended = talk(
        alloc,
        &mut port,
        Role::Both,
        &mut source,
        &mut sink,
        &mut noted,
        steps,
    );
    let Some(number) = end_number(ended) else {
        return Err(AllocError);
    };
    let talk = Talk {
        bytes: Bytes::copy_of(alloc, bytes)?,
        moments: moments_of(alloc, &noted)?,
        answers: Bytes::copy_of(alloc, sink.taken())?,
        ended: number,
    };
    Ok((into_site(port), talk))
}

// The moments that a clock noted.
fn moments_of<C: Clock>(alloc: Global, clock: &NotedClock<C>) -> Result<Listed<u64>, AllocError>
    ensures { IfOk result (λ moments. clock.now.noted ≡ Some moments) }
{
    let Some(moments) = clock.noted() else {
        return Err(AllocError);
    };
    Ok(Listed::new(Vec::from_slice(alloc, moments)?))
}

// The number by which a talk names how it ended, or none where memory ran out: a source and a
// sink in memory fail for nothing else.
fn end_number(ended: Ended) -> Option<u8>
    ensures { result ≡ end_number ended }
{
    match ended {
        Ended::Done => Some(0),
        Ended::Refused(fault) => Some(fault.number()),
        Ended::ReadFault | Ended::WriteFault | Ended::NoMemory => None,
    }
}
