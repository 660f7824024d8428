use compiled_pages::Made;
use context_desk::Tenant;
use conversation::{Desk, Outcome};
use edges::{Clock, Ledger, Sink, Steps};
use http_in::Request;
use pages_talk::PortDesk;
use site_words::Port;
use std::alloc::Global;

/// What answers the requests of one context: the desk of a connection to its site.
#[derive(Drop)]
pub(crate) struct SiteDesk<P, C, L> {
    pub(crate) desk: PortDesk<P, C, L>,
}

impl<P: Port<Made>, C: Clock, L: Ledger> Tenant for SiteDesk<P, C, L> {
    ghost use Rattle.context_words.specs.Parts.{Lent as LentToAll, Part, lent_of, part_of};
    ghost use Rattle.context_words.specs.Said.{IsLeftIn, IsSaidIn};
    ghost use Rattle.compiled_pages.specs.Pages.{needs_at};
    ghost use Rattle.pass_course.specs.Course.{IsIdle};
    ghost use Rattle.talk_words.specs.Connection.{Connection, connection_of};

    type Port = P;

    type Clock = C;

    type Count = Steps<L>;

    ghost Place = { Connection × P.Home };

    ghost Own = { Part };

    ghost Lent = { LentToAll };

    ghost place = { λ desk port. (connection_of needs_at (P.opening port) (P.pass port) desk.desk.role, P.home port) };

    ghost own = { λ desk port. part_of desk.desk.draft (P.seen port) };

    ghost lent = { λ clock count. lent_of (C.moments clock) count };

    ghost ready = { λ desk port. IsIdle (P.opening port) (P.pass port) (P.seen port) };

    ghost does = { λ place close a b e a' b'. IsSaidIn place close a b e a' b' };

    ghost leaves = { λ place close a b request text a' b'. IsLeftIn place close a b request text a' b' };

    fn serve<K: Sink>(
        &mut self,
        alloc: Global,
        port: &mut P,
        clock: &mut C,
        count: &mut Steps<L>,
        request: Request,
        number: u64,
        close: bool,
        sink: &mut K,
    ) -> Outcome {
        self.desk
            .serve(alloc, port, clock, count, request, number, close, sink)
    }
}
