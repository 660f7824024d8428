ghost use Rattle.std.specs.Prelude.{◌≡◌, ◌==◌, ◌<◌, ◌^◌, [], length, true, IfOk};
ghost use Rattle.edges.specs.Acted.{IsDid};
ghost use Rattle.site_words.specs.Fits.{at_rest, fits};
ghost use Rattle.site_words.specs.Ids.{id_of};
ghost use Rattle.site_words.specs.Invariants.{AllRest};
ghost use Rattle.site_words.specs.Law.{Legal, May, Sure, own, run_of};
ghost use Rattle.site_words.specs.Opening.{is_sound, next_opening};
ghost use Rattle.site_words.specs.State.{after};
ghost use Rattle.site_state.specs.Gifts.{IsMade, value_in};
ghost use Rattle.site_core.specs.Applies.{Applies};
ghost use Rattle.site_core.specs.Lived.{first_opening};

use crate::condition;
use crate::opening::know_limit;
use crate::perform::perform;
use crate::settings::SiteSettings;
use packed_entries::History;
use pg_text::Text;
use pg_value::Attrs;
use site_state::{Act, Given, Held, session_id};
use site_words::{Acted, Compiled, KeptSessions, Op, Opening, Refusal};
use source_tree::Tree;
use std::alloc::{AllocError, Global};
use std::marker::Model;

/// A site. Contracts see its opening and its history.
#[derive(Drop)]
pub struct Site<P: Compiled> {
    alloc: Global,
    opening: Opening,
    history: History,
    held: Held<P>,
}

impl<P: Compiled> Model for Site<P> {
    ghost use Rattle.site_core.specs.Lived.{Lived};
    ghost use Rattle.site_core.specs.ReadSite.{IsSite};
    ghost use Rattle.site_state.specs.Parts.{parts_of};

    ghost Value = { Lived };

    ghost use Rattle.pg_value.specs.DatumCode.{data_code, datum_code, entries_code};
    ghost use Rattle.std.specs.Coded.{codes};

    ghost coded = { Prim.hlevel (codes, entries_code, data_code, datum_code) };

    ghost view = { λ s. record { opening = s.opening; history = s.history.items } };

    ghost invariant = { λ s. IsSite P.needs P.made s.opening s.history.items (parts_of s.held) s.history.room };
}

/// A new site of these settings, with these application attributes and this tree.
pub fn start<P: Compiled>(
    alloc: Global,
    settings: SiteSettings,
    app: Attrs,
    tree: Tree,
) -> Result<Site<P>, AllocError>
    requires { is_sound (first_opening settings.seed app tree settings.limit settings.passes settings.idle)
        ≡ true }
    ensures { IfOk result (λ site. (site.opening ≡ first_opening settings.seed app tree settings.limit
        settings.passes settings.idle) × (site.history ≡ [])) }
{
    let SiteSettings {
        seed,
        limit,
        passes,
        idle,
    } = settings;
    Site::resume(
        alloc,
        Opening {
            seed,
            limit,
            passes,
            idle,
            version: 0,
            begins: 0,
            freshes: 0,
            moment: 0,
            app,
            tree,
            sessions: KeptSessions::empty(alloc),
        },
    )
}

impl<P: Compiled> Site<P> {
    /// The site of this opening, with an empty history.
    pub fn resume(alloc: Global, opening: Opening) -> Result<Self, AllocError>
        requires { is_sound opening ≡ true }
        ensures { IfOk result (λ site. (site.opening ≡ opening) × (site.history ≡ [])) }
    {
        know_limit(&opening);
        let history = History::new(alloc)?;
        let held = Held::start(alloc, &opening)?;
        Ok(Site {
            alloc,
            opening,
            history,
            held,
        })
    }

    /// The history is legal, its opening is sound, and it is shorter than 2^63, always.
    pub fn law(&self)
        ensures legal { Legal P.needs self.now.opening self.now.history }
        ensures sound { is_sound self.now.opening ≡ true }
        ensures short { length self.now.history < 2 ^ 63 }
    {
        let _ = &self.history;
    }

    /// The length of the history.
    pub fn len(&self) -> u64
        ensures { result ≡ length self.now.history }
    {
        self.history.len() as u64
    }

    pub fn is_empty(&self) -> bool
        ensures { result ≡ (length self.now.history == 0) }
    {
        self.history.is_empty()
    }

    pub fn history(&self) -> &History
        ensures { result.now.items ≡ self.now.history }
    {
        &self.history
    }

    pub fn opening(&self) -> &Opening
        ensures { result.now ≡ self.now.opening }
    {
        &self.opening
    }

    /// Whether no request is under way.
    pub fn at_rest(&self) -> bool
        ensures rest { result ≡ true → AllRest self.now.opening self.now.history }
        ensures answer { result ≡ at_rest (after P.needs self.now.opening self.now.history).runs }
    {
        condition::at_rest(&self.held.runs)
    }

    /// The opening that goes on from here.
    pub fn next_opening(&self) -> Result<Opening, AllocError>
        ensures { IfOk result (λ next. next ≡ next_opening self.now.opening
            (after P.needs self.now.opening self.now.history)) }
    {
        self.held.next_opening(&self.opening, &self.history)
    }

    /// Whether the operation meets the condition of a step. It takes no memory.
    pub fn fits(&self, pass: u8, op: &Op) -> bool
        ensures { result ≡ fits self.now.opening (after P.needs self.now.opening self.now.history) pass op.now }
    {
        condition::fits(&self.opening, &self.held, pass, op)
    }

    /// The id of the session with this number.
    pub fn session_id(&self, number: u64) -> Result<Text, AllocError>
        ensures { IfOk result (λ id. id ≡ id_of self.now.opening.seed number) }
    {
        session_id(self.alloc, self.opening.seed, number)
    }

    /// Does one operation of a pass, which adds one entry. Where it is refused or memory runs out
    /// all is as it was. The last operation of a request takes no memory and is never refused.
    #[inline(always)]
    pub fn apply(&mut self, pass: u8, act: Act<P>) -> Acted<Given<P>, Refusal>
        requires may { May self.old.opening self.old.history pass (own pass self.old.history) act.op }
        requires made { IsMade P.made self.old.opening self.old.history (run_of (own pass self.old.history))
            act.op (value_in act.made) }
        ensures applies { Applies P.needs P.made self.old self.new pass act.op result }
        ensures sure { Sure self.old.opening self.old.history pass (own pass self.old.history) act.op → IsDid result }
    {
        perform(&self.opening, &mut self.history, &mut self.held, pass, act)
    }
}
