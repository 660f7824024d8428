ghost use Rattle.std.specs.Prelude.{◌≡◌, ◌<◌, ◌+◌, ℕ};

use crate::inside::inside;
use crate::nowhere::find_nothing;
use crate::tenant::Tenant;
use context_names::{ContextNames, PortList};
use conversation::{Desk, Outcome};
use edges::Sink;
use http_in::Request;
use std::alloc::Global;

/// What answers the requests of a connection to several contexts: a desk for each, in the order of
/// their names.
#[derive(Drop)]
pub struct ContextDesk<'a, D: Drop> {
    pub names: &'a ContextNames,
    pub desks: Vec<D>,
}

impl<'a, D: Tenant + Drop> Desk for ContextDesk<'a, D> {
    ghost use Rattle.std.specs.Prelude.{List, Some, length};
    ghost use Rattle.std.specs.List.{slice_get};
    ghost use Rattle.context_desk.specs.Each.{each};
    ghost use Rattle.context_desk.specs.Several.{Answers, Leaves, Several, several_of};

    type Port = PortList<D::Port>;

    type Clock = D::Clock;

    type Count = D::Count;

    ghost World = { List (List ℕ) × List D.Place };

    ghost State = { Several D.Own D.Lent };

    ghost world = { λ desk port clock count. (desk.names.now, each D.place desk.desks.items port.ports.items) };

    ghost state = { λ desk port clock count. several_of (each D.own desk.desks.items port.ports.items)
        (D.lent clock count) };

    ghost ready = { λ number desk port clock count. (length desk.desks.items ≡ length desk.names.now)
        × (length port.ports.items ≡ length desk.names.now)
        × ((context : ℕ) (d : D) (p : D.Port) → slice_get desk.desks.items context ≡ Some d
        → slice_get port.ports.items context ≡ Some p → D.ready d p) };

    ghost serves = { λ world close old e new. Answers world.0 world.1 D.does close old e new };

    ghost starves = { λ world close old request text new. Leaves world.0 world.1 D.leaves close old request text new };

    fn serve<K: Sink>(
        &mut self,
        alloc: Global,
        port: &mut PortList<D::Port>,
        clock: &mut D::Clock,
        count: &mut D::Count,
        request: Request,
        number: u64,
        close: bool,
        sink: &mut K,
    ) -> Outcome {
        match self.names.context_of(request.target.as_bytes()) {
            Some((context, cut)) => {
                let Ok(inside) = inside(alloc, request, cut) else {
                    return Outcome::NoMemory;
                };
                let desk = &mut self.desks[context];
                let at = &mut port.ports[context];
                desk.serve(alloc, at, clock, count, inside, number, close, sink)
            }
            None => find_nothing(alloc, &request, close, sink),
        }
    }
}
