ghost use Rattle.std.specs.Prelude.{◌≡◌, ◌<◌, ℕ};
ghost use Rattle.edges.specs.Acted.{IsDid};
ghost use Rattle.site_words.specs.declared.words.Op.TheVariants as op;
ghost use Rattle.site_words.specs.Answers.{IsSamePort};
ghost use Rattle.site_words.specs.Invariants.{AllRest};
ghost use Rattle.site_words.specs.Law.{May, Sure, own, run_of};
ghost use Rattle.site_state.specs.Gifts.{IsMade, value_in};
ghost use Rattle.site_core.specs.Answered.{Answered};
ghost use Rattle.site_core.specs.Solo.{OthersRest};

use crate::acting::Acting;
use crate::actor::Actor;
use crate::site::Site;
use pg_text::Text;
use site_state::{Act, Given};
use site_words::{Acted, Compiled, Op, Refusal};

/// Pass 0 of a site on which no other pass acts.
#[derive(Drop)]
pub struct Alone<P: Compiled> {
    site: Site<P>,
    ghost alone: { OthersRest site.opening site.history },
}

/// The port of pass 0 of a site on which no other pass acts. It never waits.
pub type SoloPort<P> = Acting<P, Alone<P>>;

/// The port of a site on which no request is under way.
pub fn solo<P: Compiled>(site: Site<P>) -> SoloPort<P>
    requires { AllRest site.opening site.history }
    ensures { result.actor.site ≡ site }
{
    Acting::new(Alone { site })
}

/// The site of a port.
pub fn into_site<P: Compiled>(port: SoloPort<P>) -> Site<P>
    ensures { result ≡ port.actor.site }
{
    let Alone { site } = port.into_actor();
    site
}

impl<P: Compiled> Actor<P> for Alone<P> {
    type Home = u64;

    ghost home = { λ s. 0 };

    ghost pass = { λ s. 0 };

    ghost opening = { λ s. s.site.opening };

    ghost seen = { λ s. s.site.history };

    fn law(&self) {
        self.site.law();
    }

    #[inline(always)]
    fn act(&mut self, act: Act<P>) -> Acted<Given<P>, Refusal>
        requires may { May self.old.site.opening self.old.site.history 0 (own 0 self.old.site.history) act.op }
        requires made { IsMade P.made self.old.site.opening self.old.site.history
            (run_of (own 0 self.old.site.history)) act.op (value_in act.made) }
        ensures same { IsSamePort {H = ℕ} 0 0 self.old.site.opening self.new.site.opening 0 0 }
        ensures answer { Answered P.needs P.made self.old.site.opening 0 self.old.site.history
            self.new.site.history act.op result }
        ensures sure { Sure self.old.site.opening self.old.site.history 0 (own 0 self.old.site.history)
            act.op → IsDid result }
    {
        self.site.law();
        let answer = self.site.apply(0, act);
        self.site.law();
        answer
    }

    #[inline(always)]
    fn begin(&mut self, cookie: &Text, moment: u64) -> Acted<Given<P>, Refusal> {
        self.site.law();
        let Ok(cookie) = cookie.copy() else {
            return Acted::NoMemory;
        };
        let op = Op::Begin { cookie, moment };
        let answer = self.site.apply(0, Act { op, made: None });
        self.site.law();
        answer
    }
}
