ghost use Rattle.std.specs.Prelude.{◌≡◌, ℕ, List, true};
ghost use Rattle.edges.specs.Acted.{IsDid};
ghost use Rattle.site_words.specs.declared.words.Entry.{Entry};
ghost use Rattle.site_words.specs.declared.words.Opening.{Opening};
ghost use Rattle.site_words.specs.declared.words.Op.TheVariants as op;
ghost use Rattle.site_words.specs.Answers.{IsFullOnRefused, IsSamePort};
ghost use Rattle.site_words.specs.Law.{Legal, May, Sure, own, run_of};
ghost use Rattle.site_words.specs.Opening.{is_sound};
ghost use Rattle.site_state.specs.Gifts.{IsMade, value_in};
ghost use Rattle.site_core.specs.Answered.{Answered};

use pg_text::Text;
use site_state::{Act, Given};
use site_words::{Acted, Compiled, Refusal};

/// One pass that acts on a site.
pub trait Actor<P: Compiled> {
    /// What tells one shared site from another.
    type Home;

    /// Whose pass it is.
    ghost home: { Self → Self.Home };

    ghost pass: { Self → ℕ };

    ghost opening: { Self → Opening };

    ghost seen: { Self → List Entry };

    /// What was seen is legal and the opening is sound, always.
    fn law(&self)
        ensures legal { Legal P.needs (opening self.now) (seen self.now) }
        ensures sound { is_sound (opening self.now) ≡ true };

    /// Does one operation of the pass.
    fn act(&mut self, act: Act<P>) -> Acted<Given<P>, Refusal>
        requires may { May (opening self.old) (seen self.old) (pass self.old)
            (own (pass self.old) (seen self.old)) act.op }
        requires made { IsMade P.made (opening self.old) (seen self.old)
            (run_of (own (pass self.old) (seen self.old))) act.op (value_in act.made) }
        ensures same { IsSamePort (pass self.old) (pass self.new) (opening self.old) (opening self.new)
            (home self.old) (home self.new) }
        ensures answer { Answered P.needs P.made (opening self.old) (pass self.old) (seen self.old)
            (seen self.new) act.op result }
        ensures sure { Sure (opening self.old) (seen self.old) (pass self.old)
            (own (pass self.old) (seen self.old)) act.op → IsDid result };

    /// Begins a request. A busy session is waited for, at the same moment.
    fn begin(&mut self, cookie: &Text, moment: u64) -> Acted<Given<P>, Refusal>
        requires may { May (opening self.old) (seen self.old) (pass self.old)
            (own (pass self.old) (seen self.old)) (op.Begin cookie.now moment) }
        ensures same { IsSamePort (pass self.old) (pass self.new) (opening self.old) (opening self.new)
            (home self.old) (home self.new) }
        ensures answer { Answered P.needs P.made (opening self.old) (pass self.old) (seen self.old)
            (seen self.new) (op.Begin cookie.now moment) result }
        ensures full { IsFullOnRefused result };
}
