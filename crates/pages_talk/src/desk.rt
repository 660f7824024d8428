ghost use Rattle.std.specs.Prelude.{◌≡◌, ◌<◌, []};

use crate::editing::{edit, find_nothing};
use compiled_pages::Made;
use conversation::{Desk, Outcome};
use dispatch::respond;
use edges::{Clock, Ledger, Sink, Steps};
use editor::Draft;
use http_in::Request;
use site_words::Port;
use std::alloc::Global;
use std::marker::PhantomData;
use talk_words::{Role, Way, way_for};

/// What answers the requests of a connection over a port to a site.
#[derive(Drop)]
pub struct PortDesk<P, C, L> {
    pub role: Role,
    /// What the editor at the other end has said that isn't published yet.
    pub draft: Draft,
    port: PhantomData<P>,
    clock: PhantomData<C>,
    count: PhantomData<L>,
}

impl<P, C, L> PortDesk<P, C, L> {
    /// The desk of a connection that begins, with an empty draft.
    pub fn new(alloc: Global, role: Role) -> Self
        ensures role { result.role ≡ role }
        ensures draft { result.draft ≡ [] }
    {
        PortDesk {
            role,
            draft: Draft::new(alloc),
            port: PhantomData,
            clock: PhantomData,
            count: PhantomData,
        }
    }
}

impl<P: Port<Made>, C: Clock, L: Ledger> Desk for PortDesk<P, C, L> {
    ghost use Rattle.talk_words.specs.Standing.{standing_of};
    ghost use Rattle.compiled_pages.specs.Pages.{needs_at};
    ghost use Rattle.pass_course.specs.Course.{IsIdle};
    ghost use Rattle.talk_words.specs.Connection.{Connection, Stand, connection_of, stand_of};
    ghost use Rattle.talk_words.specs.Said.{IsLeft, IsSaid};

    type Port = P;

    type Clock = C;

    type Count = Steps<L>;

    ghost World = { Connection × P.Home };

    ghost State = { Stand };

    ghost world = { λ desk port clock count. (
      connection_of needs_at (P.opening port) (P.pass port) desk.role,
      P.home port,
    ) };

    ghost state = { λ desk port clock count. stand_of desk.draft (standing_of (P.seen port) (C.moments clock) count) };

    ghost ready = { λ number desk port clock count. IsIdle (P.opening port) (P.pass port) (P.seen port) };

    ghost serves = { λ world close old e new. IsSaid world.0 close old e new };

    ghost starves = { λ world close old request text new. IsLeft world.0 close old request text new };

    fn serve<K: Sink>(
        &mut self,
        alloc: Global,
        port: &mut P,
        clock: &mut C,
        count: &mut Steps<L>,
        request: Request,
        _number: u64,
        close: bool,
        sink: &mut K,
    ) -> Outcome {
        port.law();
        match way_for(self.role, &request) {
            Way::Edits => edit(alloc, &mut self.draft, port, &request, close, sink),
            Way::Nowhere => find_nothing(alloc, &request, close, sink),
            Way::Asks => respond(alloc, port, &request, close, sink, clock, count),
        }
    }
}
