// The run of one page from its beginning.
ghost use Rattle.std.specs.Prelude.{◌≡◌, ◌-◌, false};
ghost use Rattle.run_pages.specs.Run.{level_limit};
ghost use Rattle.compiled_pages.specs.Made.{TellsPages};
ghost use Rattle.page_meaning.specs.Page.{Page};
ghost use Rattle.run_pages.specs.Meant.{served_at};
ghost use Rattle.request_pages.specs.Played.{PlaysFrom};
ghost use Rattle.request_pages.specs.Point.{point_of};
ghost use Rattle.request_pages.specs.Ready.{HasPage, IsProgramIn, IsReady, KeepsRequest};

use crate::begun::run_begun;
use crate::delivery::Delivery;
use crate::reply::PageEnd;
use crate::request_state::{RequestState, begin_page};
use edges::Sink;
use page_meaning::{depth, parts};
use run_pages::AskedPage;
use run_world::Program;
use site_words::AppPort;
use std::alloc::{AllocError, Global};

/// Runs a page from its beginning. Its Fetch was charged before, and nothing was committed.
pub(crate) fn run_page<P: AppPort<Program>, K: Sink>(
    alloc: Global,
    asked: AskedPage,
    delivery: Delivery,
    state: &mut RequestState,
    sink: &mut K,
    port: &mut P,
) -> Result<PageEnd, AllocError>
    requires tells { TellsPages P.made P.faulty }
    requires uncommitted { state.old.writer.committed ≡ false }
    requires ready { IsReady delivery.close delivery.shown
        (point_of K.taken K.faults state.old sink.old (P.asking port.old)) }
    requires known { HasPage asked.program.now (P.tree port.old)
        (point_of K.taken K.faults state.old sink.old (P.asking port.old)) }
    ensures played { (page : Page) → IsProgramIn asked.entry.program.now (P.tree port.old) page → PlaysFrom
        (served_at (P.tree port.old) asked.entry.request.now state.old.around) delivery.status page
        asked.entry.params.now (level_limit - state.old.around.depth)
        (point_of K.taken K.faults state.old sink.old (P.asking port.old))
        (point_of K.taken K.faults state.new sink.new (P.asking port.new)) result }
    ensures ready { IsReady delivery.close delivery.shown
        (point_of K.taken K.faults state.new sink.new (P.asking port.new)) }
    ensures keeps { KeepsRequest (point_of K.taken K.faults state.old sink.old (P.asking port.old))
        (point_of K.taken K.faults state.new sink.new (P.asking port.new)) }
    ensures tree { P.tree port.new ≡ P.tree port.old }
    ensures leads { P.leads port.old port.new }
{
    depth();
    parts();
    let Ok(()) = begin_page(alloc, asked.program, delivery, state) else {
        return Err(AllocError);
    };
    run_begun(alloc, asked, state, sink, port)
}
