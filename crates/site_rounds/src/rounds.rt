ghost use Rattle.std.specs.Prelude.{◌≡◌, ◌≤◌, ◌<◌, ◌+◌, ◌++◌, ℕ, List, [], All, IfOk, None};
ghost use Rattle.std.specs.Prelude.{is_some, length, map, vec_capacity};
ghost use Rattle.std.specs.List.{range_with_len};
ghost use Rattle.edges.specs.History.{IsFront};
ghost use Rattle.site_words.specs.Invariants.{AllRest};
ghost use Rattle.site_words.specs.Law.{Legal};
ghost use Rattle.site_words.specs.declared.words.Entry.{Entry as TheEntry};
ghost use Rattle.pass_course.specs.Course.{IsIdle};
ghost use Rattle.site_rounds.specs.Ready.{IsReady, numbers_of};
ghost use Rattle.site_rounds.specs.Served.{IsLed, IsServed};

use crate::by_audience::{parted, rooms};
use crate::endpoints::{editors_of, previews_of, readers_of};
use crate::{Service, Talk};
use edges::{Accept, Clocks, Gate};
use pages_server::{Served, three};
use site_core::Site;
use site_shared::{SharedPort, SharedSite, SitePasses, into_pass, start};
use site_words::Compiled;
use std::alloc::{AllocError, Global};
use std::sync::Wait;
use std::thread::Threads;

/// Where readers come in, where editors do, and where drafts are shown, if anywhere.
#[derive(Drop)]
pub struct Listeners<A> {
    pub readers: A,
    pub editors: A,
    pub previews: Option<A>,
}

/// How readers are answered, how editors are, and how drafts are shown.
#[derive(Drop)]
pub struct Talks<T> {
    pub readers: T,
    pub editors: T,
    pub previews: T,
}

/// A worker of the site: the port of a pass, and the mark that the round was over.
pub type Worker<'a, P, G, R, E> = Served<SharedPort<'a, P, G, R>, E>;

/// Serves one round of all listeners, each pass of the site in a thread: the last for previews,
/// where there are any, the one before it for editors, one connection after the other, and the
/// others for readers. Where memory runs out the site is dropped.
pub fn round<
    P: Compiled + Send + Sync,
    R: Threads + Wait + Sync,
    A: Accept + Sync,
    W: Clocks + Sync,
    G: Gate + Drop + Sync,
    T: Talk<P> + Sync,
>(
    rt: &R,
    alloc: Global,
    site: Site<P>,
    gate: G,
    service: Service<'_, T, A, W>,
) -> Result<Site<P>, AllocError>
    requires rest { AllRest site.opening site.history }
    ensures rest { IfOk result (λ after. AllRest after.opening after.history) }
    ensures opening { IfOk result (λ after. after.opening ≡ site.opening) }

    // One legal history goes on.
    ensures goes_on { IfOk result (λ after. IsFront site.history after.history) }
    ensures is_legal { IfOk result (λ after. Legal P.needs after.opening after.history) }

    // Each pass did in it what its connections did, and nothing else.
    ensures served { IfOk result (λ after. (number : ℕ) → number < site.opening.passes → IsServed
        (λ talk. T.talked talk site.opening) service.entry.talks.now
        (is_some service.entry.listeners.now.previews) P.needs site.opening number site.history after.history) }
{
    site.law();
    let (shared, passes) = start(alloc, site, gate)?;
    let passes = served(rt, alloc, &shared, passes, service)?;
    let site = shared.close(passes);
    site.law();
    Ok(site)
}

// The passes once the round is over for each, in their order. All memory is taken first, so that it
// can't run out once a worker is made.
fn served<
    'a,
    P: Compiled + Send + Sync,
    R: Threads + Wait + Sync,
    A: Accept + Sync,
    W: Clocks + Sync,
    G: Gate + Drop + Sync,
    T: Talk<P> + Sync,
>(
    rt: &'a R,
    alloc: Global,
    site: &'a SharedSite<P, G>,
    passes: SitePasses<P>,
    service: Service<'a, T, A, W>,
) -> Result<SitePasses<P>, AllocError>
    requires some { 0 < length passes.items }
    requires ready { All (IsReady site.now) passes.items }
    requires in_order { numbers_of passes.items ≡ range_with_len 0 site.now.opening.passes }
    ensures ready { IfOk result (λ after. All (IsReady site.now) after.items) }
    ensures numbers { IfOk result (λ after. numbers_of after.items ≡ numbers_of passes.items) }
    ensures led { IfOk result (λ after. (history : List TheEntry) → All (λ pass. pass.seen ≡ history) passes.items
        → All (λ pass. IsLed (λ talk. T.talked talk site.now.opening) service.entry.talks.now
        (is_some service.entry.listeners.now.previews) site.now.opening.passes pass.number history pass.seen)
        after.items) }
{
    let mut after = Vec::with_capacity(alloc, passes.len())?;
    let passes = parted(passes, usize::from(service.listeners.previews.is_some()))?;
    let mut workers = rooms(alloc, &passes)?;
    seat(rt, site, passes.readers, &mut workers.readers);
    seat(rt, site, passes.editors, &mut workers.editors);
    seat(rt, site, passes.previews, &mut workers.previews);
    let for_readers = readers_of(site, service);
    let for_editors = editors_of(site, service);
    let for_previews = previews_of(site, service);
    let (readers, editors, previews) = three(
        rt,
        (&for_readers, workers.readers),
        (&for_editors, workers.editors),
        (&for_previews, workers.previews),
    );
    collect(site, readers, &mut after);
    collect(site, editors, &mut after);
    collect(site, previews, &mut after);
    Ok(after)
}

// A worker for each pass, whose round isn't over. There is room for them.
fn seat<'a, P: Compiled, R: Wait, G: Gate + Drop, E: Drop>(
    rt: &'a R,
    site: &'a SharedSite<P, G>,
    passes: SitePasses<P>,
    workers: &mut Vec<Worker<'a, P, G, R, E>>,
)
    requires ready { All (IsReady site.now) passes.items }
    requires empty { workers.old.items ≡ [] }
    requires room { length passes.items ≤ vec_capacity workers.old }
    ensures ready { All (λ worker. (worker.token.actor.site.now ≡ site.now)
        × IsReady site.now worker.token.actor.pass) workers.new.items }
    ensures passes { map (λ worker. worker.token.actor.pass) workers.new.items ≡ passes.items }
    ensures apart { All (λ worker. worker.closing ≡ None) workers.new.items }
{
    for pass in passes {
        workers.push_reserved(Served {
            token: site.port(rt, pass),
            closing: None,
        });
    }
}

// Puts the passes of workers of this site behind those that are there. There is room for them.
fn collect<'a, P: Compiled, R: Wait, G: Gate + Drop, E: Drop>(
    site: &SharedSite<P, G>,
    workers: Vec<Worker<'a, P, G, R, E>>,
    passes: &mut SitePasses<P>,
)
    requires ready { All (IsReady site.now) passes.old.items }
    requires idle { All (λ worker. (worker.token.actor.site.now ≡ site.now) × IsIdle site.now.opening
        worker.token.actor.pass.number worker.token.actor.pass.seen) workers.items }
    requires room { length passes.old.items + length workers.items ≤ vec_capacity passes.old }
    ensures ready { All (IsReady site.now) passes.new.items }
    ensures passes { passes.new.items
        ≡ passes.old.items ++ map (λ worker. worker.token.actor.pass) workers.entry.items }
    ensures room { vec_capacity passes.new ≡ vec_capacity passes.old }
{
    for worker in workers {
        passes.push_reserved(into_pass(worker.token));
    }
}
