ghost use Rattle.std.specs.Prelude.{◌≡◌, ◌≤◌, ◌<◌, ◌+◌, [], All, IfOk, None, OnOk, length, map};
ghost use Rattle.std.specs.Prelude.{vec_capacity};
ghost use Rattle.context_workers.specs.Seats.{AreSeated, HaveFewer};
ghost use Rattle.pass_course.specs.Course.{IsIdle};
ghost use Rattle.site_rounds.specs.Ready.{IsReady};

use crate::taking::take_last;
use context_names::PortList;
use edges::Gate;
use pages_server::Served;
use site_shared::{SharedPort, SharedSite, SitePasses};
use site_words::Compiled;
use std::alloc::{AllocError, Global};
use std::sync::Wait;

/// A worker of several sites: a port to each, in the order of their names, and the mark that the
/// round was over.
pub type Worker<'a, P, G, R, E> = Served<PortList<SharedPort<'a, P, G, R>>, E>;

/// Puts so many workers into an empty list with room for them, each with the last pass that is left
/// of every site. Where memory runs out, the workers that were made stand there, and the passes
/// that were taken for the next one are dropped.
pub fn seat<'a, P: Compiled, G: Gate + Drop, R: Wait, E: Drop>(
    rt: &'a R,
    alloc: Global,
    sites: &'a [SharedSite<P, G>],
    passes: &mut [SitePasses<P>],
    count: u8,
    workers: &mut Vec<Worker<'a, P, G, R, E>>,
) -> Result<(), AllocError>
    requires seated { AreSeated IsReady sites.now (map (λ own. own.items) passes.old) }
    requires enough { All (λ own. count ≤ length own) (map (λ own. own.items) passes.old) }
    requires empty { workers.old.items ≡ [] }
    requires room { count ≤ vec_capacity workers.old }
    ensures seated { OnOk result (AreSeated IsReady sites.now (map (λ own. own.items) passes.new)) }
    ensures fewer { OnOk result (HaveFewer count (map (λ own. own.items) passes.old)
        (map (λ own. own.items) passes.new)) }
    ensures count { OnOk result (length workers.new.items ≡ count) }
    ensures sites { OnOk result (All (λ worker. map (λ port. port.actor.site.now) worker.token.ports.items
        ≡ sites.now) workers.new.items) }
    ensures idle { OnOk result (All (λ worker. All (λ port. IsIdle port.actor.site.now.opening
        port.actor.pass.number port.actor.pass.seen) worker.token.ports.items) workers.new.items) }
    ensures apart { OnOk result (All (λ worker. worker.closing ≡ None) workers.new.items) }
{
    for _ in 0..count {
        workers.push_reserved(Served {
            token: ports_of(rt, alloc, sites, passes)?,
            closing: None,
        });
    }
    Ok(())
}

// A port to each site, by the last pass that is left of it.
fn ports_of<'a, P: Compiled, G: Gate + Drop, R: Wait>(
    rt: &'a R,
    alloc: Global,
    sites: &'a [SharedSite<P, G>],
    passes: &mut [SitePasses<P>],
) -> Result<PortList<SharedPort<'a, P, G, R>>, AllocError>
    requires seated { AreSeated IsReady sites.now (map (λ own. own.items) passes.old) }
    requires some { All (λ own. 1 ≤ length own) (map (λ own. own.items) passes.old) }
    ensures seated { OnOk result (AreSeated IsReady sites.now (map (λ own. own.items) passes.new)) }
    ensures fewer { OnOk result (HaveFewer 1 (map (λ own. own.items) passes.old)
        (map (λ own. own.items) passes.new)) }
    ensures sites { IfOk result (λ list. map (λ port. port.actor.site.now) list.ports.items ≡ sites.now) }
    ensures idle { IfOk result (λ list. All (λ port. IsIdle port.actor.site.now.opening port.actor.pass.number
        port.actor.pass.seen) list.ports.items) }
{
    let mut ports = PortList::new(alloc);
    for (context, site) in sites.iter().enumerate() {
        ports.push(site.port(rt, take_last(passes, context)))?;
    }
    Ok(ports)
}
