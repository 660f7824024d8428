ghost use Rattle.std.specs.Prelude.{◌≡◌, ◌≤◌, IfOk, OnErr, OnOk};
ghost use Rattle.pages_load.specs.Load.{HasReport, IsSpoken, IsUntold, IsWhole};

use crate::report::report;
use compiled_pages::Made;
use edges::{Ledger, MemClock, MemSink, MemSource, Steps};
use load_gen::{MAX_PAGES, make};
use pages_talk::{Ended, Role, start_alone, talk};
use site_core::{Site, into_site};
use std::alloc::{AllocError, Global};

/// The seed of the site.
const SEED: [u8; 32] = [0; 32];

/// The most bytes that are read at once.
const PIECE_BYTES: usize = 4_096;

/// Sends the messages for so many pages to a new site, and gives the lines that tell of that.
pub(crate) fn run<L: Ledger>(
    alloc: Global,
    number: u32,
    steps: &mut Steps<L>,
) -> Result<Vec<u8>, AllocError>
    requires some { 1 ≤ number }
    requires few { number ≤ MAX_PAGES }
    ensures told { IfOk result (λ lines. HasReport number steps.old steps.new lines.items) }
    ensures untold { OnErr result (IsUntold number steps.old steps.new) }
{
    let (ended, site, sink) = converse(alloc, number, steps)?;
    check_whole(ended)?;
    let lines = report(alloc, number, site.history(), sink.taken())?;
    Ok(lines)
}

// Sends them, and gives how that ended, the site and the answers.
fn converse<L: Ledger>(
    alloc: Global,
    number: u32,
    steps: &mut Steps<L>,
) -> Result<(Ended, Site<Made>, MemSink), AllocError>
    requires some { 1 ≤ number }
    requires few { number ≤ MAX_PAGES }
    ensures spoken { IfOk result (λ done. IsSpoken number steps.old steps.new done.1.history done.2.taken done.0) }
    ensures unread { OnErr result (steps.new ≡ steps.old) }
{
    let mut port = start_alone(alloc, SEED)?;
    let mut source = MemSource::new(make(alloc, number)?, PIECE_BYTES, Vec::new(alloc));
    let mut sink = MemSink::new(alloc, Vec::new(alloc));
    let mut clock = MemClock::new(vec![in alloc; 0]?);
    let ended = talk(
        alloc,
        &mut port,
        Role::Both,
        &mut source,
        &mut sink,
        &mut clock,
        steps,
    );
    Ok((ended, into_site(port), sink))
}

// Gives an error where the conversation wasn't whole: its source and its sink are in memory, and
// fail only where that runs out.
fn check_whole(ended: Ended) -> Result<(), AllocError>
    ensures { OnOk result (IsWhole ended) }
{
    match ended {
        Ended::Done | Ended::Refused(_) => Ok(()),
        Ended::ReadFault | Ended::WriteFault | Ended::NoMemory => Err(AllocError),
    }
}
