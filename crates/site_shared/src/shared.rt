ghost use Rattle.std.specs.Prelude.{◌≡◌, All, IfOk, None};
ghost use Rattle.site_words.specs.Calls.{Stays};
ghost use Rattle.site_words.specs.Invariants.{AllRest};
ghost use Rattle.site_words.specs.Law.{own, run_of};
ghost use Rattle.turn_table.specs.Passes.{AreAll, IsPassOf, newcomers};
ghost use Rattle.pass_course.specs.Course.{IsIdle};

use crate::ends::Ends;
use crate::seated::{Seated, SitePass, SitePasses};
use crate::turn::{SharedPort, Turn};
use edges::Gate;
use site_core::{Acting, Site};
use site_words::Compiled;
use std::alloc::{AllocError, Global};
use std::marker::Model;
use std::sync::Wait;
use turn_table::Turns;

/// A site on which passes act in turns, each behind the gate. Contracts see which turns they are,
/// how many passes they have, and the opening of the site.
#[derive(Drop)]
pub struct SharedSite<P: Compiled, G: Gate + Drop> {
    pub(crate) turns: Turns<Seated<P>>,
    pub(crate) gate: G,
    pub(crate) ends: Ends,
}

impl<P: Compiled, G: Gate + Drop> Model for SharedSite<P, G> {
    ghost use Rattle.std.specs.Prelude.{◌≡◌, true};
    ghost use Rattle.site_words.specs.declared.words.Opening.{Opening as TheOpening};
    ghost use Rattle.site_words.specs.Opening.{is_sound};
    ghost use Rattle.turn_table.specs.Passes.{Origin};

    ghost Value = { Origin TheOpening };

    ghost use Rattle.pg_value.specs.DatumCode.{data_code, datum_code, entries_code};
    ghost use Rattle.std.specs.Coded.{codes};

    ghost coded = { Prim.hlevel (codes, entries_code, data_code, datum_code) };

    ghost view = { λ s. s.turns };

    ghost invariant = { λ s. (s.turns.passes ≡ s.turns.opening.passes) × (is_sound s.turns.opening ≡ true) };
}

/// Shares a site, on which no request is under way, among as many passes as its opening says. Where
/// memory runs out the site is dropped.
pub fn start<P: Compiled, G: Gate + Drop>(
    alloc: Global,
    site: Site<P>,
    gate: G,
) -> Result<(SharedSite<P, G>, SitePasses<P>), AllocError>
    requires { AllRest site.opening site.history }
    ensures site { IfOk result (λ made. (made.0.passes ≡ site.opening.passes) × (made.0.opening ≡ site.opening)) }
    ensures passes { IfOk result (λ made. made.1.items ≡ newcomers made.0 site.history) }
    ensures from { IfOk result (λ made. All (IsPassOf made.0) made.1.items) }
    ensures idle { IfOk result (λ made. All (λ pass. IsIdle site.opening pass.number pass.seen) made.1.items) }
{
    site.law();
    let count = site.opening().passes;
    let site = Box::new(alloc, site)?;
    let (turns, passes) = Turns::start(alloc, Seated { site }, count)?;
    let ends = Ends::new();
    Ok((SharedSite { turns, gate, ends }, passes))
}

impl<P: Compiled, G: Gate + Drop> SharedSite<P, G> {
    /// The port of a pass of this site.
    pub fn port<'a, R: Wait>(&'a self, rt: &'a R, pass: SitePass<P>) -> SharedPort<'a, P, G, R>
        requires { IsPassOf self.now pass }
        ensures site { result.actor.site.now ≡ self.now }
        ensures pass { result.actor.pass ≡ pass }
    {
        Acting::new(Turn::new(self, rt, pass))
    }

    /// The turns, for `latest`, `note` and `meet` on a pass that no port owns.
    pub fn turns(&self) -> &Turns<Seated<P>>
        ensures { result.now ≡ self.now }
    {
        &self.turns
    }

    /// Gives the site back, once all passes are there. Where none of them has a request under way,
    /// the site has none.
    pub fn close(self, passes: SitePasses<P>) -> Site<P>
        requires { AreAll self passes.items }
        ensures opening { result.opening ≡ self.opening }
        ensures passes { All (λ pass. Stays P.needs self.opening pass.number pass.seen result.history) passes.items }
        ensures rest { All (λ pass. run_of (own pass.number pass.seen) ≡ None) passes.items →
            AllRest result.opening result.history }
    {
        Box::into_inner(self.turns.close(passes).site)
    }
}
