// The open loops of a running code.
ghost use Rattle.std.specs.Prelude.{◌≡◌, ◌≤◌, [], ◌∷◌, length, List, OnOk, OnErr, MatchOption};
ghost use Rattle.page_meaning.specs.Loops.{round_begun};
ghost use Rattle.page_meaning.specs.Rounds.{Round};
ghost use Rattle.page_table.specs.Open.{Loop as Loop'};
ghost use Rattle.run_moves.specs.Loops.{advanced, loop_of};
ghost use Rattle.run_world.specs.Part.{Doing};

use crate::rounds_arm;
use page_code::Name;
use pg_text::Failure;
use pg_value::RunFault;
use run_values::{Mark, Rounds, Statuses};
use run_world::World;
use std::alloc::{AllocError, Global};
use std::marker::Model;

/// An open loop: its variables, the values that it was given under their names, the last first,
/// with the statuses that are made of them, and its rounds to come.
#[derive(Drop)]
pub struct Loop {
    pub variable: Option<Name>,
    pub status: Option<Name>,
    pub statuses: Statuses,
    pub rounds: Rounds,
}

/// The open loops. Contracts see the list of them, the innermost first.
#[derive(Drop)]
pub struct Loops {
    loops: Vec<Loop>,
}

impl Model for Loops {
    ghost use Rattle.std.specs.Prelude.{List, map, reverse};
    ghost use Rattle.page_table.specs.Open.{Loop};
    ghost use Rattle.run_moves.specs.Loops.{loop_of};
    ghost use Rattle.run_moves.specs.LoopCode.{loops_code};

    ghost Value = { List Loop };

    ghost coded = { loops_code };

    ghost view = { λ l. reverse (map loop_of l.loops.items) };
}

impl Loops {
    pub fn new(alloc: Global) -> Self
        ensures { result ≡ [] }
    {
        Loops {
            loops: Vec::new(alloc),
        }
    }

    pub fn len(&self) -> usize
        ensures { result ≡ length self.now }
    {
        self.loops.len()
    }

    pub fn push(&mut self, opened: Loop) -> Result<(), AllocError>
        ensures ok { OnOk result (self.new ≡ loop_of opened ∷ self.old) }
        ensures err { OnErr result (self.new ≡ self.old) }
    {
        self.loops.push(opened)?;
        Ok(())
    }

    pub fn pop(&mut self) -> Option<Loop>
        ensures { MatchOption result ((self.old ≡ []) × (self.new ≡ [])) (λ innermost. self.old
            ≡ loop_of innermost ∷ self.new) }
    {
        self.loops.pop()
    }

    /// The innermost loop.
    pub fn innermost(&self) -> Option<&Loop>
        ensures { MatchOption result (self.now ≡ []) (λ innermost. (outer : List Loop') × (self.now
            ≡ loop_of innermost.now ∷ outer)) }
    {
        self.loops.last()
    }

    /// The next round of the innermost loop begins: X18, X20. It stays the next one until
    /// `advance`.
    pub fn begin_round<W: World>(
        &mut self,
        alloc: Global,
        mark: &Mark,
        world: &mut W,
    ) -> Result<(), Failure<RunFault>>
        requires covered { W.covered world.old }
        requires opened { 1 ≤ length self.old }
        ensures covered { W.covered world.new }
        ensures same { self.new ≡ self.old }
        ensures does { (l : Loop') (outer : List Loop') (r : Round) (rest : List Round) → self.old ≡ l ∷ outer
            → l.rounds ≡ r ∷ rest → r.index ≡ mark.now.index → r.count ≡ mark.now.count
            → r.is_last ≡ mark.now.is_last → Doing W.reached W.replies (λ u. u)
            (λ place. round_begun place l.variable l.status l.values r) world.old world.new result }
    {
        let Some(innermost) = self.loops.last_mut() else {
            unreachable!()
        };
        rounds_arm::begin_round(alloc, innermost, mark, world)
    }

    /// The round that was the next one of the innermost loop has begun: the one behind it is the
    /// next.
    pub fn advance(&mut self)
        ensures { self.new ≡ advanced self.old }
    {
        let Some(innermost) = self.loops.last_mut() else {
            return;
        };
        innermost.rounds.advance();
    }
}
