// Several sites that are served at once: each worker has a port to every one of them.
ghost use Rattle.std.specs.Prelude.{◌≡◌, ◌≤◌, ◌+◌, All, IfOk, None, OnOk, length, map};
ghost use Rattle.context_workers.specs.Seats.{AreSeated, HaveFewer};
ghost use Rattle.pass_course.specs.Course.{IsIdle};
ghost use Rattle.site_rounds.specs.Ready.{IsReady};

use crate::context_endpoints::{editors_of, readers_of};
use crate::platform::Platform;
use crate::unmarked::Unmarked;
use compiled_pages::Made;
use context_names::ContextNames;
use context_workers::{SharedSites, Worker, seat, share};
use contexts::start;
use edges::{Accept, Clocks, OpenGate};
use pages_server::both;
use serve_words::Settings;
use site_rounds::Listeners;
use site_shared::{SharedSite, SitePasses};
use std::alloc::{AllocError, Global};
use std::sync::Wait;
use std::thread::Threads;

/// Serves a site without files for each name: to readers by as many workers as are said, and to
/// editors by one more. It ends where memory runs out; else it lasts as long as the listeners,
/// and then the sites are dropped.
pub(crate) fn serve_contexts<R: Threads + Wait + Sync, A: Accept + Sync, W: Clocks + Sync>(
    platform: Platform<'_, R, W>,
    names: &ContextNames,
    settings: &Settings,
    listeners: &Listeners<Unmarked<A>>,
) -> Result<(), AllocError>
    requires { settings.now.workers ≤ 63 }
{
    let alloc = platform.alloc;
    let readers = settings.workers;
    let contexts = start(alloc, names, settings.seed, readers + 1)?;
    let SharedSites { sites, mut passes } = share(alloc, contexts, OpenGate)?;
    serve_shared(platform, names, readers, listeners, &sites, &mut passes)
}

// Serves shared sites of these names by so many workers to readers, and by one more to editors.
fn serve_shared<'a, R: Threads + Wait + Sync, A: Accept + Sync, W: Clocks + Sync>(
    platform: Platform<'a, R, W>,
    names: &'a ContextNames,
    readers: u8,
    listeners: &'a Listeners<Unmarked<A>>,
    sites: &'a [SharedSite<Made, OpenGate>],
    passes: &mut [SitePasses<Made>],
) -> Result<(), AllocError>
    requires many { length sites.now ≡ length names.now }
    requires seated { AreSeated IsReady sites.now (map (λ own. own.items) passes.old) }
    requires enough { All (λ own. 1 + readers ≤ length own) (map (λ own. own.items) passes.old) }
{
    let rt = platform.rt;
    let alloc = platform.alloc;
    let editors = workers_of(rt, alloc, sites, passes, 1)?;
    let readers = workers_of(rt, alloc, sites, passes, readers)?;
    let for_readers = readers_of(platform, names, listeners);
    let for_editors = editors_of(platform, names, listeners);
    both(rt, (&for_readers, readers), (&for_editors, editors));
    Ok(())
}

// So many workers, each with the last pass that is left of every site.
fn workers_of<'a, R: Wait>(
    rt: &'a R,
    alloc: Global,
    sites: &'a [SharedSite<Made, OpenGate>],
    passes: &mut [SitePasses<Made>],
    count: u8,
) -> Result<Vec<Worker<'a, Made, OpenGate, R, ()>>, AllocError>
    requires seated { AreSeated IsReady sites.now (map (λ own. own.items) passes.old) }
    requires enough { All (λ own. count ≤ length own) (map (λ own. own.items) passes.old) }
    ensures seated { OnOk result (AreSeated IsReady sites.now (map (λ own. own.items) passes.new)) }
    ensures fewer { OnOk result (HaveFewer count (map (λ own. own.items) passes.old)
        (map (λ own. own.items) passes.new)) }
    ensures sites { IfOk result (λ workers. All (λ worker. map (λ port. port.actor.site.now)
        worker.token.ports.items ≡ sites.now) workers.items) }
    ensures idle { IfOk result (λ workers. All (λ worker. All (λ port. IsIdle port.actor.site.now.opening
        port.actor.pass.number port.actor.pass.seen) worker.token.ports.items) workers.items) }
    ensures apart { IfOk result (λ workers. All (λ worker. worker.closing ≡ None) workers.items) }
{
    let mut workers = Vec::with_capacity(alloc, usize::from(count))?;
    seat(rt, alloc, sites, passes, count, &mut workers)?;
    Ok(workers)
}
