// A page with the targets of its forwards.
ghost use Rattle.std.specs.Prelude.{◌≡◌, ◌-◌, List, Some, false, IfOk};
ghost use Rattle.std.specs.Arc.{arc_value};
ghost use Rattle.run_pages.specs.Run.{level_limit};
ghost use Rattle.compiled_pages.specs.Made.{IsFaultOf, IsProgramOf};
ghost use Rattle.compiled_pages.specs.Pages.{needs_at};
ghost use Rattle.page_meaning.specs.Page.{Page};
ghost use Rattle.run_pages.specs.Meant.{served_at};
ghost use Rattle.request_pages.specs.Chained.{ChainsFrom, chain_answers, params_of};
ghost use Rattle.request_pages.specs.Point.{point_over};
ghost use Rattle.request_pages.specs.Ready.{HasPage, IsProgramIn, IsReady, KeepsRequest};
ghost use Rattle.request_pages.specs.Target.{IsOther, IsTargetEnd, IsTargetReply};
ghost use Rattle.request_port.specs.Leading.{IsLast, Leads};
ghost use Rattle.site_words.specs.Running.{IsPaged};
ghost use Rattle.source_tree.specs.declared.file.File.{File};

use crate::delivery::Delivery;
use crate::incoming::Incoming;
use crate::reply::{PageEnd, Reply};
use crate::request_state::RequestState;
use crate::running::run_page;
use crate::telling::{file, not_found, page_fault};
use compiled_pages::Made;
use edges::{Ledger, Sink};
use http_in::{Param, Request};
use http_out::Status;
use pg_text::{Listed, Path};
use request_port::RequestPort;
use response_laws::responses;
use run_pages::AskedPage;
use run_world::{Program, Raise};
use site_words::{Paged, Port};
use std::alloc::{AllocError, Global};
use std::sync::Arc;

/// A page that runs, and in its place the target of its forward, and so on: its program, the
/// parameters of its own where it isn't the page of the request, and the status of the response.
#[derive(Drop)]
pub(crate) struct Chain {
    pub(crate) program: Arc<Program>,
    pub(crate) own: Option<Listed<Param>>,
    pub(crate) status: Status,
}

/// How a page and its forwards ended.
#[derive(Drop)]
pub(crate) enum ChainEnd {
    Done(Reply),
    Failed(Failure),
}

/// A fault that ended the run of a page before anything was committed. The page has parameters of
/// its own where it is a forward's target.
#[derive(Drop)]
pub(crate) struct Failure {
    pub(crate) raise: Raise,
    pub(crate) program: Arc<Program>,
    pub(crate) own: Option<Listed<Param>>,
}

/// Runs a page, and in its place the target of its forward. Each target has fewer levels left.
pub(crate) fn run_chain<'a, Q: Port<Made>, L: Ledger, K: Sink>(
    alloc: Global,
    chain: Chain,
    incoming: Incoming,
    state: &mut RequestState,
    sink: &mut K,
    port: &mut RequestPort<'a, Q, L>,
) -> Result<ChainEnd, AllocError>
    requires uncommitted { state.old.writer.committed ≡ false }
    requires ready { IsReady incoming.close incoming.shown
        (point_over Q.opening Q.pass Q.seen K.taken K.faults state.old sink.old port.old) }
    requires last { IsLast port.old.tree.now port.old.last }
    requires known { HasPage (arc_value chain.program) port.old.tree.now
        (point_over Q.opening Q.pass Q.seen K.taken K.faults state.old sink.old port.old) }
    ensures chained { (page : Page) → IsProgramIn (arc_value chain.program) port.old.tree.now page →
        ChainsFrom
        (chain_answers (served_at port.old.tree.now incoming.entry.request.now state.old.around)
        chain.status (level_limit - state.old.around.depth) page
        (params_of incoming.entry.request.now chain.own)) incoming.entry.request.now port.old.tree.now
        (point_over Q.opening Q.pass Q.seen K.taken K.faults state.old sink.old port.old)
        (point_over Q.opening Q.pass Q.seen K.taken K.faults state.new sink.new port.new) result }
    ensures ready { IsReady incoming.entry.close incoming.entry.shown
        (point_over Q.opening Q.pass Q.seen K.taken K.faults state.new sink.new port.new) }
    ensures keeps { KeepsRequest (point_over Q.opening Q.pass Q.seen K.taken K.faults state.old sink.old port.old)
        (point_over Q.opening Q.pass Q.seen K.taken K.faults state.new sink.new port.new) }
    ensures tree { port.new.tree.now ≡ port.old.tree.now }
    ensures leads { Leads needs_at Q.pass Q.opening Q.home Q.seen port.old port.new }
{
    responses();
    let params = params_of(incoming.request, &chain.own);
    let asked = AskedPage {
        program: &*chain.program,
        request: incoming.request,
        params,
    };
    let status = chain.status;
    let delivery = Delivery {
        status,
        close: incoming.close,
        shown: incoming.shown,
    };
    match run_page(alloc, asked, delivery, state, sink, port) {
        Err(AllocError) => Err(AllocError),
        Ok(PageEnd::Done(reply)) => Ok(ChainEnd::Done(reply)),
        Ok(PageEnd::Failed(raise)) => Ok(ChainEnd::Failed(failed(raise, chain))),
        Ok(PageEnd::Forward(path, more)) => {
            drop(chain);
            match port.again(&path) {
                Err(AllocError) => Err(AllocError),
                Ok(Paged::Page(program)) => {
                    let next = Chain {
                        program,
                        own: Some(more),
                        status,
                    };
                    run_chain(alloc, next, incoming, state, sink, port)
                }
                Ok(found) => end_at_target(alloc, status, &path, found),
            }
        }
    }
}

// The fault that ended the run of a chain's page.
fn failed(raise: Raise, chain: Chain) -> Failure
    ensures { result ≡ record { raise = raise; program = chain.program; own = chain.own } }
{
    let Chain { program, own, .. } = chain;
    Failure {
        raise,
        program,
        own,
    }
}

// How a chain ends at the path of a forward's target, where that is no page.
fn end_at_target(
    alloc: Global,
    status: Status,
    path: &Path,
    found: Paged<Program>,
) -> Result<ChainEnd, AllocError>
    requires other { IsOther found }
    ensures told { (tree : List File) → IsPaged IsProgramOf IsFaultOf tree path.now found →
        IfOk result (λ end. IsTargetEnd tree status path.now end) }
{
    match tell_target(alloc, status, path, &found) {
        Ok(reply) => Ok(ChainEnd::Done(reply)),
        Err(AllocError) => Err(AllocError),
    }
}

// What stands at the path of a forward's target, where that is no page.
fn tell_target(
    alloc: Global,
    status: Status,
    path: &Path,
    found: &Paged<Program>,
) -> Result<Reply, AllocError>
    requires other { IsOther found.now }
    ensures told { (tree : List File) → IsPaged IsProgramOf IsFaultOf tree path.now found.now →
        IfOk result (λ reply. IsTargetReply tree status path.now reply) }
{
    match found {
        Paged::Plain(text) => file(status, path, text),
        Paged::Bad(fault) => page_fault(alloc, fault),
        Paged::Absent => not_found(alloc),
        Paged::Page(_) => unreachable!(),
    }
}

// The parameters of a page's run: its own, or those of the request.
pub(crate) fn params_of<'a>(request: &'a Request, own: &'a Option<Listed<Param>>) -> &'a [Param]
    ensures { result.now ≡ params_of request.now own.now }
{
    match own {
        Some(params) => params.as_slice(),
        None => request.params.as_slice(),
    }
}
