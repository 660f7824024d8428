ghost use Rattle.std.specs.Prelude.{◌≡◌, ◌<◌, ℕ, []};
ghost use Rattle.talk_words.specs.Said.{is_editors};

use crate::asking::ask;
use crate::editing::edit;
use crate::incoming::Incoming;
use crate::telling::tell;
use compiled_pages::Made;
use conversation::{Desk, Outcome, takes_method};
use edges::{Ledger, Sink, Steps};
use editor::Draft;
use http_in::Request;
use http_out::Status;
use site_words::Port;
use std::alloc::Global;
use std::marker::PhantomData;
use talk_words::{Role, Way, way_for};

/// What answers the requests of a preview connection over a port to the live site.
#[derive(Drop)]
pub(crate) struct PreviewDesk<P, L> {
    pub(crate) draft: Draft,
    port: PhantomData<P>,
    count: PhantomData<L>,
}

impl<P, L> PreviewDesk<P, L> {
    /// The desk of a connection that begins, with an empty draft.
    pub(crate) fn new(alloc: Global) -> Self
        ensures { result.draft ≡ [] }
    {
        PreviewDesk {
            draft: Draft::new(alloc),
            port: PhantomData,
            count: PhantomData,
        }
    }
}

impl<P: Port<Made>, L: Ledger> Desk for PreviewDesk<P, L> {
    ghost use Rattle.compiled_pages.specs.Pages.{needs_at};
    ghost use Rattle.preview_words.specs.Previewed.{IsPreviewed, Leaves, PreviewStand};
    ghost use Rattle.preview_words.specs.Previewed.{preview_stand};
    ghost use Rattle.site_words.specs.declared.words.Opening.{Opening};

    type Port = P;

    type Clock = ();

    type Count = Steps<L>;

    ghost World = { Opening × ℕ × P.Home };

    ghost State = { PreviewStand };

    ghost world = { λ desk port clock count. (P.opening port, P.pass port, P.home port) };

    ghost state = { λ desk port clock count. preview_stand desk.draft (P.seen port) count };

    ghost ready = { λ number desk port clock count. P.pass port < (P.opening port).passes };

    ghost serves = { λ world close old e new. IsPreviewed needs_at world.0 world.1 close old e new };

    ghost starves = { λ world close old request text new.
        Leaves needs_at world.0 world.1 request close old text new };

    fn serve<K: Sink>(
        &mut self,
        alloc: Global,
        port: &mut P,
        _clock: &mut (),
        count: &mut Steps<L>,
        request: Request,
        _number: u64,
        close: bool,
        sink: &mut K,
    ) -> Outcome {
        let mut incoming = Incoming { request, close };
        if is_editors(&incoming.request) {
            return edit(alloc, &mut self.draft, &incoming, sink);
        }
        if !takes_method(&incoming.request) {
            let line = b"MethodNotAllowed";
            return tell(alloc, &incoming, Status::MethodNotAllowed, line, sink);
        }
        ask(alloc, &self.draft, port, &mut incoming, sink, count)
    }
}

// Whether a request is an editor's.
fn is_editors(request: &Request) -> bool
    ensures { result ≡ is_editors request.now.target }
{
    matches!(way_for(Role::Both, request), Way::Edits)
}
