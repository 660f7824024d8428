// What comes instead of a page whose run a fault ended before anything was committed.
ghost use Rattle.std.specs.Prelude.{◌≡◌, ◌≤◌, ℕ, List};
ghost use Rattle.std.specs.Arc.{arc_value};
ghost use Rattle.http_in.specs.declared.params.Param.{Param};
ghost use Rattle.run_pages.specs.Run.{IsInOrder};
ghost use Rattle.compiled_pages.specs.Pages.{needs_at, paged_at};
ghost use Rattle.page_meaning.specs.Context.{Served};
ghost use Rattle.page_meaning.specs.Page.{Page};
ghost use Rattle.request_pages.specs.Closed.{fault_answers};
ghost use Rattle.request_pages.specs.Instead.{FindsInstead, UnlessShort};
ghost use Rattle.request_pages.specs.Played.{IsFunded};
ghost use Rattle.request_pages.specs.Point.{asking_over};
ghost use Rattle.request_pages.specs.Ready.{IsProgramIn};
ghost use Rattle.request_port.specs.Leading.{Leads};
ghost use Rattle.run_world.specs.Seats.{raise_of};
ghost use Rattle.scopes.specs.Scopes.{ScopeState};

use crate::chain::Failure;
use crate::looking::{error_path, look};
use crate::reply::Reply;
use crate::telling::{file, run_fault};
use compiled_pages::Made;
use edges::Ledger;
use http_out::Status;
use request_port::RequestPort;
use response_laws::responses;
use run_stage::MAX_ASKED_CHARGE;
use run_world::{Around, Program};
use site_words::{Paged, Port};
use std::alloc::{AllocError, Global};
use std::sync::Arc;

/// What comes instead of a page whose run a fault ended.
#[derive(Drop)]
pub(crate) enum Instead {
    /// Its error page runs. The line is answered where a fault ends that too.
    Page { program: Arc<Program>, line: Reply },
    /// This is answered, and no other page runs.
    Told(Result<Reply, AllocError>),
}

/// Finds what comes instead of a page whose run a fault ended. An error page is charged, and so is
/// one with a fault.
pub(crate) fn find_instead<'a, Q: Port<Made>, L: Ledger>(
    alloc: Global,
    failure: &Failure,
    around: &mut Around,
    port: &mut RequestPort<'a, Q, L>,
) -> Instead
    requires charge { around.old.charge ≤ MAX_ASKED_CHARGE }
    requires funded { IsFunded around.old (asking_over Q.opening Q.pass Q.seen port.old) }
    ensures found { (page : Page) → IsProgramIn (arc_value failure.now.program) port.old.tree.now page →
        (served : Served) → ((p : List ℕ) → served.pages p ≡ paged_at port.old.tree.now p) →
        (params : List Param) → FindsInstead (fault_answers served page params (raise_of failure.now.raise))
        port.old.tree.now page (raise_of failure.now.raise) around.old around.new
        (asking_over Q.opening Q.pass Q.seen port.old) (asking_over Q.opening Q.pass Q.seen port.new) result }
    ensures in_order { (scopes : ScopeState) →
        IsInOrder scopes around.old (asking_over Q.opening Q.pass Q.seen port.old) →
        UnlessShort result (IsInOrder scopes around.new (asking_over Q.opening Q.pass Q.seen port.new)) }
    ensures funded { UnlessShort result (IsFunded around.new (asking_over Q.opening Q.pass Q.seen port.new)) }
    ensures around { around.new ≡ record around.old { charge = around.new.charge } }
    ensures tree { port.new.tree.now ≡ port.old.tree.now }
    ensures leads { Leads needs_at Q.pass Q.opening Q.home Q.seen port.old port.new }
{
    responses();
    let path = match error_path(alloc, &failure.program) {
        Err(AllocError) => return Instead::Told(Err(AllocError)),
        Ok(None) => return Instead::Told(run_fault(alloc, &failure.raise)),
        Ok(Some(path)) => path,
    };
    match look(&path, around, port) {
        Err(AllocError) => Instead::Told(Err(AllocError)),
        Ok(Paged::Absent) => Instead::Told(run_fault(alloc, &failure.raise)),
        Ok(Paged::Bad(fault)) => {
            drop(fault);
            Instead::Told(run_fault(alloc, &failure.raise))
        }
        Ok(Paged::Plain(text)) => Instead::Told(file(Status::InternalServerError, &path, &text)),
        Ok(Paged::Page(program)) => {
            let Ok(line) = run_fault(alloc, &failure.raise) else {
                return Instead::Told(Err(AllocError));
            };
            Instead::Page { program, line }
        }
    }
}
