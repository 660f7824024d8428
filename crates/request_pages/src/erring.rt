// What is answered where a fault ended a page's run before anything was committed.
ghost use Rattle.std.specs.Prelude.{◌≡◌, ◌≤◌, false, OnOk};
ghost use Rattle.std.specs.Arc.{arc_value};
ghost use Rattle.run_pages.specs.Run.{IsInOrder};
ghost use Rattle.compiled_pages.specs.Pages.{needs_at};
ghost use Rattle.page_meaning.specs.Page.{Page};
ghost use Rattle.run_pages.specs.Meant.{served_at};
ghost use Rattle.request_pages.specs.Chained.{params_of};
ghost use Rattle.request_pages.specs.Closed.{ClosesUncommitted, fault_answers};
ghost use Rattle.request_pages.specs.Headed.{IsHeaded};
ghost use Rattle.request_pages.specs.Point.{asking_over, point_over};
ghost use Rattle.request_pages.specs.Ready.{HasPage, IsProgramIn, IsReady};
ghost use Rattle.request_port.specs.Leading.{IsLast, Leads};
ghost use Rattle.run_world.specs.Seats.{raise_of};

use crate::chain::{Chain, ChainEnd, Failure, run_chain};
use crate::incoming::Incoming;
use crate::instead::{Instead, find_instead};
use crate::reply::Reply;
use crate::request_state::RequestState;
use compiled_pages::Made;
use edges::{Ledger, Sink};
use http_out::Status;
use request_port::RequestPort;
use response_laws::responses;
use run_stage::MAX_ASKED_CHARGE;
use site_words::Port;
use std::alloc::{AllocError, Global};

/// Answers a fault: by the error page of the page whose run it ended, or by the line of the fault.
pub(crate) fn run_error<'a, Q: Port<Made>, L: Ledger, K: Sink>(
    alloc: Global,
    failure: Failure,
    incoming: Incoming,
    state: &mut RequestState,
    sink: &mut K,
    port: &mut RequestPort<'a, Q, L>,
) -> Result<Reply, AllocError>
    requires uncommitted { state.old.writer.committed ≡ false }
    requires ready { IsReady incoming.close incoming.shown
        (point_over Q.opening Q.pass Q.seen K.taken K.faults state.old sink.old port.old) }
    requires charge { state.old.around.charge ≤ MAX_ASKED_CHARGE }
    requires last { IsLast port.old.tree.now port.old.last }
    requires known { HasPage (arc_value failure.program) port.old.tree.now
        (point_over Q.opening Q.pass Q.seen K.taken K.faults state.old sink.old port.old) }
    ensures closed { (page : Page) → IsProgramIn (arc_value failure.program) port.old.tree.now page →
        ClosesUncommitted
        (fault_answers (served_at port.old.tree.now incoming.entry.request.now state.old.around) page
        (params_of incoming.entry.request.now failure.own) (raise_of failure.raise))
        (point_over Q.opening Q.pass Q.seen K.taken K.faults state.old sink.old port.old)
        (point_over Q.opening Q.pass Q.seen K.taken K.faults state.new sink.new port.new) result }
    ensures headed { IsHeaded incoming.entry.close incoming.entry.shown state.new.around state.new.writer }
    ensures in_order { OnOk result (IsInOrder state.new.scopes state.new.around
        (asking_over Q.opening Q.pass Q.seen port.new)) }
    ensures tree { port.new.tree.now ≡ port.old.tree.now }
    ensures leads { Leads needs_at Q.pass Q.opening Q.home Q.seen port.old port.new }
{
    responses();
    match find_instead(alloc, &failure, &mut state.around, port) {
        Instead::Told(answer) => answer,
        Instead::Page { program, line } => {
            let Failure {
                raise,
                program: failed,
                own,
            } = failure;
            drop(failed);
            state.around.exception = Some(raise);
            state.around.visits = 0;
            state.around.depth = 0;
            let chain = Chain {
                program,
                own,
                status: Status::InternalServerError,
            };
            match run_chain(alloc, chain, incoming, state, sink, port) {
                Err(AllocError) => Err(AllocError),
                Ok(ChainEnd::Done(reply)) => Ok(reply),
                Ok(ChainEnd::Failed(second)) => {
                    drop(second);
                    Ok(line)
                }
            }
        }
    }
}
