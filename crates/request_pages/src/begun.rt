// The run of a page that has begun.
ghost use Rattle.std.specs.Prelude.{◌≡◌, ◌+◌, ◌-◌, ◌≤◌, ℕ, List};
ghost use Rattle.std.specs.declared.option.Option.{Option};
ghost use Rattle.out_buffer.specs.Held.{Stands};
ghost use Rattle.out_buffer.specs.Writer.{Writer as Wrote};
ghost use Rattle.run_pages.specs.Run.{IsInOrder, level_limit};
ghost use Rattle.compiled_pages.specs.Made.{TellsPages};
ghost use Rattle.page_meaning.specs.Page.{Page};
ghost use Rattle.run_pages.specs.Meant.{served_at};
ghost use Rattle.request_pages.specs.PageEnd.{EndsBy, EndsFrom};
ghost use Rattle.request_pages.specs.Point.{point_of};
ghost use Rattle.request_pages.specs.Ready.{IsProgramIn, KeepsRequest};
ghost use Rattle.run_stage.specs.Keeping.{KeepsResponse};

use crate::body::Body;
use crate::reply::{PageEnd, Reply};
use crate::request_state::RequestState;
use edges::Sink;
use http_out::Status;
use page_meaning::{depth, parts};
use run_pages::{AskedPage, RunEnd, run_program};
use run_stage::RUN_PROMISE;
use run_world::{Program, Raise};
use site_words::AppPort;
use std::alloc::{AllocError, Global};

/// Runs a page whose run has begun, and whose Fetch was charged before.
pub(crate) fn run_begun<P: AppPort<Program>, K: Sink>(
    alloc: Global,
    asked: AskedPage,
    state: &mut RequestState,
    sink: &mut K,
    port: &mut P,
) -> Result<PageEnd, AllocError>
    requires tells { TellsPages P.made P.faulty }
    requires in_order { IsInOrder state.old.scopes state.old.around (P.asking port.old) }
    requires promise { RUN_PROMISE ≤ state.old.around.charge + (P.asking port.old).left }
    requires writer { (start : Option (List ℕ)) × (before : ℕ) × (written : Wrote) × Stands start before
        state.old.writer (K.taken sink.old) (K.faults sink.old) written }
    ensures ended { (page : Page) → IsProgramIn asked.entry.program.now (P.tree port.old) page → EndsFrom
        (served_at (P.tree port.old) asked.entry.request.now state.old.around) page asked.entry.params.now
        (level_limit - state.old.around.depth)
        (point_of K.taken K.faults state.old sink.old (P.asking port.old))
        (point_of K.taken K.faults state.new sink.new (P.asking port.new)) result }
    ensures in_order { IsInOrder state.new.scopes state.new.around (P.asking port.new) }
    ensures keeps { KeepsRequest (point_of K.taken K.faults state.old sink.old (P.asking port.old))
        (point_of K.taken K.faults state.new sink.new (P.asking port.new)) }
    ensures response { KeepsResponse state.old.writer state.new.writer state.old.around state.new.around }
    ensures tree { P.tree port.new ≡ P.tree port.old }
    ensures leads { P.leads port.old port.new }
{
    depth();
    parts();
    let end = run_program(
        alloc,
        asked,
        &mut state.scopes,
        &mut state.writer,
        sink,
        &mut state.around,
        port,
    );
    page_end(alloc, end, state.writer.committed())
}

// How a run ended, by whether something was committed.
fn page_end(alloc: Global, end: RunEnd, committed: bool) -> Result<PageEnd, AllocError>
    ensures { EndsBy committed end result }
{
    match end {
        RunEnd::Normal => Ok(PageEnd::Done(Reply::Written { broken: false })),
        RunEnd::Raised { .. } if committed => Ok(PageEnd::Done(Reply::Written { broken: true })),
        RunEnd::Raised { fault, place } => Ok(PageEnd::Failed(Raise { fault, place })),
        RunEnd::Redirect(address) => Ok(PageEnd::Done(Reply::Whole {
            status: Status::Found,
            content_type: None,
            location: Some(address),
            body: Body::empty(alloc),
        })),
        RunEnd::Forward(path, params) => Ok(PageEnd::Forward(path, params)),
        RunEnd::NoMemory => Err(AllocError),
    }
}
