ghost use Rattle.std.specs.Prelude.{◌≡◌, true};
ghost use Rattle.edges.specs.Acted.{IsDid};
ghost use Rattle.site_words.specs.declared.words.Op.TheVariants as op;
ghost use Rattle.site_words.specs.Answers.{IsSamePort};
ghost use Rattle.site_words.specs.Law.{May, Sure, own, run_of};
ghost use Rattle.site_words.specs.Opening.{is_sound};
ghost use Rattle.site_state.specs.Gifts.{IsMade, value_in};
ghost use Rattle.site_core.specs.Answered.{Answered};
ghost use Rattle.turn_table.specs.Passes.{IsPassOf};

use crate::busy::{holder_of, is_busy};
use crate::ends::ended_by;
use crate::seated::{Seated, SitePass};
use crate::shared::SharedSite;
use edges::Gate;
use pg_text::Text;
use site_core::{Act, Acting, Actor, Given};
use site_words::{Acted, Compiled, Op, Refusal};
use std::sync::Wait;
use turn_table::Turns;

/// A pass of a shared site that acts in its turns.
#[derive(Drop)]
pub struct Turn<'a, P: Compiled, G: Gate + Drop, R: Wait> {
    site: &'a SharedSite<P, G>,
    rt: &'a R,
    pass: SitePass<P>,
    ghost from: { IsPassOf site.now pass },
    ghost sound: { is_sound site.now.opening ≡ true },
}

/// The port of a pass of a shared site. Its calls wait for their turns, and a request waits while
/// its session is held.
pub type SharedPort<'a, P, G, R> = Acting<P, Turn<'a, P, G, R>>;

/// The pass of a port.
pub fn into_pass<'a, P: Compiled, G: Gate + Drop, R: Wait>(
    port: SharedPort<'a, P, G, R>,
) -> SitePass<P>
    ensures pass { result ≡ port.entry.actor.pass }
    ensures from { IsPassOf port.entry.actor.site.now result }
{
    port.into_actor().pass
}

impl<'a, P: Compiled, G: Gate + Drop, R: Wait> Turn<'a, P, G, R> {
    // The pass on its site.
    pub(crate) fn new(site: &'a SharedSite<P, G>, rt: &'a R, pass: SitePass<P>) -> Self
        requires from { IsPassOf site.now pass }
        ensures site { result.site.now ≡ site.now }
        ensures pass { result.pass ≡ pass }
    {
        let _ = &site.turns;
        Turn { site, rt, pass }
    }

    // Asks once for a request.
    fn ask_begin(&mut self, cookie: &Text, moment: u64) -> Acted<Given<P>, Refusal>
        requires may { May self.old.site.now.opening self.old.pass.seen self.old.pass.number
            (own self.old.pass.number self.old.pass.seen) (op.Begin cookie.now moment) }
        ensures same { IsSamePort self.old.pass.number self.new.pass.number self.old.site.now.opening
            self.new.site.now.opening self.old.site.now self.new.site.now }
        ensures answer { Answered P.needs P.made self.old.site.now.opening self.old.pass.number
            self.old.pass.seen self.new.pass.seen (op.Begin cookie.now moment) result }
    {
        self.law();
        let Ok(cookie) = cookie.copy() else {
            return Acted::NoMemory;
        };
        let op = Op::Begin { cookie, moment };
        self.act(Act { op, made: None })
    }
}

impl<'a, P: Compiled, G: Gate + Drop, R: Wait> Actor<P> for Turn<'a, P, G, R> {
    type Home = Turns<Seated<P>>;

    ghost home = { λ t. t.site.now };

    ghost pass = { λ t. t.pass.number };

    ghost opening = { λ t. t.site.now.opening };

    ghost seen = { λ t. t.pass.seen };

    fn law(&self) {
        self.pass.law();
    }

    fn act(&mut self, act: Act<P>) -> Acted<Given<P>, Refusal>
        requires may { May self.old.site.now.opening self.old.pass.seen self.old.pass.number
            (own self.old.pass.number self.old.pass.seen) act.op }
        requires made { IsMade P.made self.old.site.now.opening self.old.pass.seen
            (run_of (own self.old.pass.number self.old.pass.seen)) act.op (value_in act.made) }
        ensures same { IsSamePort self.old.pass.number self.new.pass.number self.old.site.now.opening
            self.new.site.now.opening self.old.site.now self.new.site.now }
        ensures answer { Answered P.needs P.made self.old.site.now.opening self.old.pass.number
            self.old.pass.seen self.new.pass.seen act.op result }
        ensures sure { Sure self.old.site.now.opening self.old.pass.seen self.old.pass.number
            (own self.old.pass.number self.old.pass.seen) act.op → IsDid result }
    {
        let site = self.site;
        let ended = ended_by(&act.op);
        site.gate.pass(u64::from(self.pass.number()));
        let answer = site.turns.act(self.rt, &mut self.pass, act);
        site.ends.announce(ended);
        answer
    }

    fn begin(&mut self, cookie: &Text, moment: u64) -> Acted<Given<P>, Refusal> {
        self.law();
        let (site, rt) = (self.site, self.rt);
        let mut listener = site.ends.listener();
        for _try in rt.forever() {
            let answer = self.ask_begin(cookie, moment);
            if !is_busy(&answer) {
                return answer;
            }
            listener.await_end(rt, holder_of(&answer));
        }
        unreachable!()
    }
}
