ghost use Rattle.std.specs.Prelude.{◌≡◌, ◌<◌, [], IfOk};
ghost use Rattle.std.specs.Bool.{Decides};
ghost use Rattle.compiled_pages.specs.Pages.{needs_at};
ghost use Rattle.recorded_talk.specs.Rerun.{IsRerun};
ghost use Rattle.recorded_talk.specs.Talked.{HasTalk, IsByNumber};

use crate::comparing::is_same_talk;
use crate::waiting::with_two;
use compiled_pages::Made;
use conversation::Ended;
use edges::{MemClock, MemSink, MemSource, Steps, Unseen};
use packed_entries::History;
use pages_talk::{Role, talk};
use site_core::{Site, into_site, solo};
use site_journal::Talk;
use std::alloc::{AllocError, Global};
use std::marker::Brand;
use std::sync::ledger::{Blank, Ledger};
use talk_law::one_talk;

/// The most bytes that are read at once.
const PIECE_BYTES: usize = 4_096;

/// What a connection came to that was run again: the number of its end, what was answered, the
/// clock as it stands then, and the site.
#[derive(Drop)]
pub(crate) struct Rerun {
    pub(crate) number: u8,
    pub(crate) sink: MemSink,
    pub(crate) clock: MemClock,
    pub(crate) site: Site<Made>,
}

/// Whether a talk is what is said on the one connection to a site at its beginning, with this
/// history: one pass acts, the answers are those for the talk's bytes at its moments, exactly these
/// moments are taken, every entry is used, and the end is the talk's.
pub fn is_right(
    alloc: Global,
    site: Site<Made>,
    talk: Talk,
    history: &History,
) -> Result<bool, AllocError>
    requires { site.history ≡ [] }
    ensures { IfOk result (λ right. Decides right (HasTalk needs_at site.opening history.now.items talk)) }
{
    let passes = site.opening().passes;
    if passes != 1 {
        return Ok(false);
    }
    one_talk();
    let Talk {
        bytes,
        moments,
        answers,
        ended,
    } = talk;
    let mut again = run_again::<Brand>(
        alloc,
        site,
        bytes.into_vec(),
        moments.into_vec(),
        Blank::new(1),
    )?;
    Ok(is_same_talk(&mut again, &answers, ended, history))
}

// Runs the connection again on a site for one pass.
fn run_again<N: Ledger>(
    alloc: Global,
    site: Site<Made>,
    bytes: Vec<u8>,
    moments: Vec<u64>,
    blank: Blank,
) -> Result<Rerun, AllocError>
    requires name { blank.name ≡ N.name }
    requires parts { blank.parts ≡ N.parts }
    requires some { 0 < N.parts }
    requires one { site.opening.passes ≡ 1 }
    requires new { site.history ≡ [] }
    ensures { IfOk result (λ again. IsRerun needs_at site.opening bytes.items moments.items again) }
{
    let mut source = MemSource::new(bytes, PIECE_BYTES, Vec::new(alloc));
    let mut sink = MemSink::new(alloc, Vec::new(alloc));
    let mut clock = MemClock::new(with_two(moments)?);
    let mut steps = Steps::<Unseen<N>>::unseen(blank);
    let mut port = solo(site);
    let ended = talk(
        alloc,
        &mut port,
        Role::Both,
        &mut source,
        &mut sink,
        &mut clock,
        &mut steps,
    );
    let number = number_of(ended)?;
    Ok(Rerun {
        number,
        sink,
        clock,
        site: into_site(port),
    })
}

// The number by which a talk names how it ended. A source in memory doesn't fail, and a sink in
// memory only where memory runs out.
fn number_of(ended: Ended) -> Result<u8, AllocError>
    ensures { IfOk result (λ number. IsByNumber number ended) }
{
    match ended {
        Ended::Done => Ok(0),
        Ended::Refused(fault) => Ok(fault.number()),
        Ended::ReadFault | Ended::WriteFault | Ended::NoMemory => Err(AllocError),
    }
}
