ghost use Rattle.std.specs.Prelude.{◌≡◌, ◌<◌, ℕ, IfOk, is_some};
ghost use Rattle.compiled_pages.specs.Pages.{needs_at};
ghost use Rattle.edges.specs.History.{IsFront};
ghost use Rattle.pages_serve.specs.Talked.{HasTalked, audiences};
ghost use Rattle.site_rounds.specs.Served.{IsServed};
ghost use Rattle.site_words.specs.Invariants.{AllRest};
ghost use Rattle.site_words.specs.Law.{Legal};

use crate::platform::Platform;
use crate::talks::talks_of;
use compiled_pages::Made;
use edges::{Accept, Clocks, Gate};
use site_core::Site;
use site_rounds::{Listeners, Service, round};
use std::alloc::AllocError;
use std::sync::Wait;
use std::thread::Threads;

/// Serves one round of all listeners by the pages of a site, each as those for whom it is. Where
/// memory runs out the site is dropped.
pub fn serve_round<
    'a,
    R: Threads + Wait + Sync,
    A: Accept + Sync,
    W: Clocks + Sync,
    G: Gate + Drop + Sync,
>(
    platform: Platform<'a, R, W>,
    site: Site<Made>,
    gate: G,
    listeners: &'a Listeners<A>,
) -> Result<Site<Made>, AllocError>
    requires rest { AllRest site.opening site.history }
    ensures rest { IfOk result (λ after. AllRest after.opening after.history) }
    ensures opening { IfOk result (λ after. after.opening ≡ site.opening) }
    ensures goes_on { IfOk result (λ after. IsFront site.history after.history) }
    ensures is_legal { IfOk result (λ after. Legal needs_at after.opening after.history) }

    // Each pass did in it what connections do of those for whom it is, and nothing else.
    ensures served { IfOk result (λ after. (number : ℕ) → number < site.opening.passes → IsServed
        (λ audience. HasTalked audience site.opening) audiences (is_some listeners.now.previews) needs_at
        site.opening number site.history after.history) }
{
    let Platform { rt, alloc, clocks } = platform;
    let talks = talks_of(alloc);
    let service = Service {
        talks: &talks,
        listeners,
        clocks,
    };
    round(rt, alloc, site, gate, service)
}
