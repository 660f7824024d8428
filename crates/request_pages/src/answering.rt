// What is answered at the path of a request.
ghost use Rattle.std.specs.Prelude.{◌≡◌, ◌≤◌, [], false, None, OnOk};
ghost use Rattle.std.specs.Arc.{arc_value};
ghost use Rattle.run_pages.specs.Run.{IsInOrder};
ghost use Rattle.compiled_pages.specs.Pages.{needs_at};
ghost use Rattle.page_meaning.specs.Page.{Page};
ghost use Rattle.page_meaning.specs.Respond.{is_hidden};
ghost use Rattle.page_meaning.specs.State.{State};
ghost use Rattle.run_pages.specs.Meant.{served_at};
ghost use Rattle.request_pages.specs.Closed.{ClosesFrom, ClosesUncommitted, first_answers, request_answers};
ghost use Rattle.request_pages.specs.Headed.{IsHeaded};
ghost use Rattle.request_pages.specs.Point.{PointStands, asking_over, point_over};
ghost use Rattle.request_pages.specs.Ready.{HasPage, IsProgramIn, IsReady};
ghost use Rattle.request_port.specs.Leading.{IsLast, Leads};
ghost use Rattle.run_world.specs.Origin.{Origin};

use crate::chain::{Chain, ChainEnd, run_chain};
use crate::erring::run_error;
use crate::incoming::Incoming;
use crate::looking::look;
use crate::reply::Reply;
use crate::request_state::RequestState;
use crate::telling::{file, not_found, page_fault};
use compiled_pages::Made;
use edges::{Ledger, Sink};
use http_out::Status;
use pg_text::Path;
use request_port::RequestPort;
use response_laws::responses;
use run_stage::MAX_ASKED_CHARGE;
use run_world::Program;
use site_words::{Paged, Port, has_prefix};
use std::alloc::{AllocError, Global};
use std::sync::Arc;

/// Answers a request that was begun: what stands at its path, where that isn't hidden. A page runs,
/// with its forwards and its error page.
pub fn answer<'a, Q: Port<Made>, L: Ledger, K: Sink>(
    alloc: Global,
    incoming: Incoming,
    state: &mut RequestState,
    sink: &mut K,
    port: &mut RequestPort<'a, Q, L>,
) -> Result<Reply, AllocError>
    requires ready { IsReady incoming.close incoming.shown
        (point_over Q.opening Q.pass Q.seen K.taken K.faults state.old sink.old port.old) }
    requires begun { (state.old.around.depth ≡ 0) × (state.old.around.charge ≡ 0) ×
        (state.old.around.exception ≡ None) }
    requires last { IsLast port.old.tree.now port.old.last }
    requires stands { (origin : Origin) × (s : State) × PointStands origin
        (point_over Q.opening Q.pass Q.seen K.taken K.faults state.old sink.old port.old) s
        × (s.writer.pieces ≡ []) }
    ensures closed { ClosesUncommitted
        (request_answers (served_at port.old.tree.now incoming.entry.request.now state.old.around)
        incoming.entry.request.now)
        (point_over Q.opening Q.pass Q.seen K.taken K.faults state.old sink.old port.old)
        (point_over Q.opening Q.pass Q.seen K.taken K.faults state.new sink.new port.new) result }
    ensures headed { IsHeaded incoming.entry.close incoming.entry.shown state.new.around state.new.writer }
    ensures in_order { OnOk result (IsInOrder state.new.scopes state.new.around
        (asking_over Q.opening Q.pass Q.seen port.new)) }
    ensures tree { port.new.tree.now ≡ port.old.tree.now }
    ensures leads { Leads needs_at Q.pass Q.opening Q.home Q.seen port.old port.new }
{
    responses();
    let Some(path) = &incoming.request.path else {
        return not_found(alloc);
    };
    if is_hidden(path) {
        return not_found(alloc);
    }
    match look(path, &mut state.around, port) {
        Err(AllocError) => Err(AllocError),
        Ok(Paged::Absent) => not_found(alloc),
        Ok(Paged::Plain(text)) => file(Status::Ok, path, &text),
        Ok(Paged::Bad(fault)) => page_fault(alloc, &fault),
        Ok(Paged::Page(program)) => first_page(alloc, program, incoming, state, sink, port),
    }
}

// Runs the page that a request names, whose Fetch was charged before.
fn first_page<'a, Q: Port<Made>, L: Ledger, K: Sink>(
    alloc: Global,
    program: Arc<Program>,
    incoming: Incoming,
    state: &mut RequestState,
    sink: &mut K,
    port: &mut RequestPort<'a, Q, L>,
) -> Result<Reply, AllocError>
    requires uncommitted { state.old.writer.committed ≡ false }
    requires ready { IsReady incoming.close incoming.shown
        (point_over Q.opening Q.pass Q.seen K.taken K.faults state.old sink.old port.old) }
    requires depth { state.old.around.depth ≡ 0 }
    requires charge { state.old.around.charge ≤ MAX_ASKED_CHARGE }
    requires last { IsLast port.old.tree.now port.old.last }
    requires known { HasPage (arc_value program) port.old.tree.now
        (point_over Q.opening Q.pass Q.seen K.taken K.faults state.old sink.old port.old) }
    ensures closed { (page : Page) → IsProgramIn (arc_value program) port.old.tree.now page → ClosesFrom
        (first_answers (served_at port.old.tree.now incoming.entry.request.now state.old.around) page
        incoming.entry.request.now.params)
        (point_over Q.opening Q.pass Q.seen K.taken K.faults state.old sink.old port.old)
        (point_over Q.opening Q.pass Q.seen K.taken K.faults state.new sink.new port.new) result }
    ensures headed { IsHeaded incoming.entry.close incoming.entry.shown state.new.around state.new.writer }
    ensures in_order { OnOk result (IsInOrder state.new.scopes state.new.around
        (asking_over Q.opening Q.pass Q.seen port.new)) }
    ensures tree { port.new.tree.now ≡ port.old.tree.now }
    ensures leads { Leads needs_at Q.pass Q.opening Q.home Q.seen port.old port.new }
{
    responses();
    let chain = Chain {
        program,
        own: None,
        status: Status::Ok,
    };
    match run_chain(alloc, chain, incoming, state, sink, port) {
        Err(AllocError) => Err(AllocError),
        Ok(ChainEnd::Done(reply)) => Ok(reply),
        Ok(ChainEnd::Failed(failure)) => run_error(alloc, failure, incoming, state, sink, port),
    }
}

// Whether a path is hidden from requests.
fn is_hidden(path: &Path) -> bool
    ensures { result ≡ is_hidden path.now }
{
    has_prefix(path.as_bytes(), b"/WEB-INF/")
}
