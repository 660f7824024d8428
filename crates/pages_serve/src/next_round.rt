ghost use Rattle.compiled_pages.specs.Pages.{needs_at};
ghost use Rattle.pages_serve.specs.Onward.{IsOnward};
ghost use Rattle.site_words.specs.Invariants.{AllRest};

use compiled_pages::Made;
use edges::Sink;
use rollover::{Rolled, roll};
use site_core::Site;
use std::alloc::Global;

/// The site with which the next round is served: the one that goes on once the journal is written,
/// or this one as it is where that failed.
#[inline(never)]
pub fn onward<J: Sink>(alloc: Global, site: Site<Made>, journals: &mut J) -> Site<Made>
    requires { AllRest site.opening site.history }
    ensures goes_on { IsOnward needs_at site result (J.taken journals.old) (J.taken journals.new)
        (J.faults journals.old) (J.faults journals.new) }
    ensures rest { AllRest result.opening result.history }
{
    match roll(alloc, site, None, journals) {
        Rolled::Done(next) => next,
        Rolled::WriteFault(site) => site,
        Rolled::Spent(site) => site,
        Rolled::NoMemory(site) => site,
    }
}
