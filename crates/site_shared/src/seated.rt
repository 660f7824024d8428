ghost use Rattle.std.specs.Prelude.{◌≡◌, ◌<◌, ◌^◌, [], ◌∷◌, ◌++◌, length};
ghost use Rattle.edges.specs.Acted.{MatchActed, IsDid};
ghost use Rattle.edges.specs.declared.acted.Acted.TheVariants.{Refused};
ghost use Rattle.site_words.specs.declared.words.Entry.{Entry as TheEntry};
ghost use Rattle.site_words.specs.Calls.{Stands};
ghost use Rattle.site_words.specs.Law.{Legal, May, Sure, own, pass_of as pass_in, run_of};
ghost use Rattle.site_words.specs.State.{after};
ghost use Rattle.site_words.specs.Step.{step};
ghost use Rattle.site_words.proofs.Lasting.{may_lasts as may_holds_on, sure_lasts as sure_holds_on};
ghost use Rattle.site_state.specs.Gifts.{IsMade, value_in};
ghost use Rattle.site_core.specs.Applies.{Replies};
ghost use Rattle.site_core.proofs.Lasts.{made_lasts};

use site_core::{Act, Given, Site};
use site_words::{Acted, Compiled, Entry, Opening, Refusal};
use turn_table::{Object, Pass, Passes};

/// A site on which passes take turns. It stands where it is while they come and go with its
/// address.
#[derive(Drop)]
pub struct Seated<P: Compiled> {
    pub site: Box<Site<P>>,
}

/// A pass of a shared site.
pub type SitePass<P> = Pass<Seated<P>>;

/// Passes of a shared site, in any order.
pub type SitePasses<P> = Passes<Seated<P>>;

impl<P: Compiled> Object for Seated<P> {
    type Op = Act<P>;

    type Reply = Given<P>;

    type Refusal = Refusal;

    type Entry = Entry;

    type Opening = Opening;

    ghost opening = { λ s. s.site.value.opening };

    ghost history = { λ s. s.site.value.history };

    ghost pass_of = { pass_in };

    ghost stands = { λ e pass act given. Stands e pass act.op given.reply };

    ghost legal = { λ x history. Legal P.needs x history };

    ghost replies = { λ x front pass act given. Replies P.needs P.made x front pass act.op given };

    ghost refuses = { λ x front pass act refusal. step P.needs x (after P.needs x front) pass act.op
        ≡ Refused refusal };

    ghost may = { λ x front pass entries act. May x front pass entries act.op
        × IsMade P.made x front (run_of entries) act.op (value_in act.made) };

    ghost sure = { λ x front pass entries act. Sure x front pass entries act.op };

    fn len(&self) -> u64 {
        self.site.law();
        self.site.len()
    }

    fn apply(&mut self, pass: u8, act: Act<P>) -> Acted<Given<P>, Refusal>
        requires may { May self.old.site.value.opening self.old.site.value.history pass
            (own pass self.old.site.value.history) act.op × IsMade P.made self.old.site.value.opening
            self.old.site.value.history (run_of (own pass self.old.site.value.history)) act.op (value_in act.made) }
        ensures opening { self.new.site.value.opening ≡ self.old.site.value.opening }
        ensures short { length self.new.site.value.history < 2 ^ 63 }
        ensures is_legal { Legal P.needs self.new.site.value.opening self.new.site.value.history }
        ensures answer { MatchActed result
            (λ given. (e : TheEntry) × (pass_in e ≡ pass) × Stands e pass act.op given.reply
            × Replies P.needs P.made self.old.site.value.opening self.old.site.value.history pass act.op given ×
            (self.new.site.value.history ≡ self.old.site.value.history ++ e ∷ []))
            (λ refusal. (step P.needs self.old.site.value.opening
            (after P.needs self.old.site.value.opening self.old.site.value.history) pass act.op ≡ Refused refusal) ×
            (self.new.site.value.history ≡ self.old.site.value.history))
            (self.new.site.value.history ≡ self.old.site.value.history) }
        ensures surely { Sure self.old.site.value.opening self.old.site.value.history pass
            (own pass self.old.site.value.history) act.op → IsDid result }
    {
        let answer = self.site.apply(pass, act);
        self.site.law();
        answer
    }

    ghost may_lasts = { λ x front more pass act may same. (
      may_holds_on x front more pass act.op may.0 same,
      made_lasts P.made x front more pass act.op (value_in act.made) may.0 may.1 same,
    ) };

    ghost sure_lasts = { λ x front more pass act sure same. sure_holds_on x front more pass act.op sure same };
}
