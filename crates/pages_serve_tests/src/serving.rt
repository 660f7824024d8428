//! What comes of connections that a site serves for one round.
ghost use Rattle.site_words.specs.Invariants.{AllRest};

use crate::parted::Parted;
use crate::wires::{HeldGate, Wire, WireAccept};
use compiled_pages::Made;
use edges::StillClock;
use pages_serve::{Platform, serve_round};
use site_core::Site;
use site_rounds::Listeners;
use std::alloc::Global;
use std::sync::Wait;
use std::sync::atomic::AtomicU64;
use std::test::Fail;
use std::thread::Threads;

/// A text for each connection: to readers, to editors, and to previews; and whether the gate holds
/// the first operation until something is written to a reader.
#[derive(Clone, Copy)]
pub struct Said<'a> {
    pub readers: &'a [&'a str],
    pub editors: &'a [&'a str],
    pub previews: &'a [&'a str],
    pub is_held: bool,
}

/// The connections, those to readers first and those for previews last.
pub fn wires_of(alloc: Global, said: Said<'_>) -> Result<Vec<Wire>, Fail> {
    let mut wires = Vec::new(alloc);
    add_wires(alloc, &mut wires, said.readers)?;
    add_wires(alloc, &mut wires, said.editors)?;
    add_wires(alloc, &mut wires, said.previews)?;
    Ok(wires)
}

fn add_wires(alloc: Global, wires: &mut Vec<Wire>, texts: &[&str]) -> Result<(), Fail> {
    for text in texts {
        add_wire(alloc, wires, text)?;
    }
    Ok(())
}

fn add_wire(alloc: Global, wires: &mut Vec<Wire>, text: &str) -> Result<(), Fail> {
    let wire = Wire::new(alloc, text)?;
    wires.push(wire)?;
    Ok(())
}

/// The site behind a round that serves each of these connections once.
pub fn served<R: Threads + Wait + Sync>(
    rt: &R,
    alloc: Global,
    site: Site<Made>,
    said: Said<'_>,
    wires: &[Wire],
    gave_up: &AtomicU64,
) -> Result<Site<Made>, Fail> {
    if !site.at_rest() {
        return Err(Fail::new("a request is under way"));
    }
    let (readers, others) = wires.split_at(said.readers.len().min(wires.len()));
    let (editors, previews) = others.split_at(said.editors.len().min(others.len()));
    let gate = HeldGate {
        wires: readers,
        passed: AtomicU64::new(if said.is_held { 0 } else { 1 }),
        gave_up,
    };
    let parted = Parted {
        readers,
        editors,
        previews,
    };
    serve_once(rt, alloc, site, gate, parted)
}

// One round. Where nobody asks for a preview there is no port for them.
fn serve_once<R: Threads + Wait + Sync>(
    rt: &R,
    alloc: Global,
    site: Site<Made>,
    gate: HeldGate<'_>,
    wires: Parted<'_>,
) -> Result<Site<Made>, Fail>
    requires rest { AllRest site.opening site.history }
{
    let listeners = Listeners {
        readers: WireAccept::new(rt, alloc, wires.readers),
        editors: WireAccept::new(rt, alloc, wires.editors),
        previews: if wires.previews.is_empty() {
            None
        } else {
            Some(WireAccept::new(rt, alloc, wires.previews))
        },
    };
    let clocks = StillClock { moment: 0 };
    let platform = Platform {
        rt,
        alloc,
        clocks: &clocks,
    };
    match serve_round(platform, site, gate, &listeners) {
        Ok(site) => Ok(site),
        Err(failure) => Err(Fail::from(failure)),
    }
}
