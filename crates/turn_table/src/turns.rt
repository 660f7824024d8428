ghost use Rattle.std.specs.Prelude.{◌≡◌, ℕ, ◌≤◌, List, length, All, IfOk};
ghost use Rattle.edges.specs.Acted.{MatchActed, IsDid};
ghost use Rattle.edges.specs.Calls.{Acts, Stays};
ghost use Rattle.edges.specs.History.{IsFront, own};
ghost use Rattle.turn_table.specs.Passes.{AreAll, IsPassOf, IsNoteOf, newcomers};

use crate::note::Note;
use crate::object::Object;
use crate::pass::Pass;
use crate::passes::Passes;
use crate::rule::TurnTable;
use crate::{passes, seat, turn};
use edges::Acted;
use std::alloc::{AllocError, Global};
use std::hint;
use std::marker::Model;
use std::sync::{Mutex, MutexGuard, Wait};

/// How often a pass tries the door before it sleeps there. Most turns are shorter than so many
/// pauses of a processor, and these shorter than a sleep with its wake-up.
const TRIES: u32 = 100;

/// An object on which passes take turns. Contracts see which turns they are, how many passes they
/// have, and the opening of the object.
#[derive(Drop)]
pub struct Turns<O: Object> {
    table: TurnTable<O>,
    // One pass after the other comes to the table, so that the waiting is the lock's.
    door: Mutex<()>,
}

impl<O: Object> Model for Turns<O> {
    ghost use Rattle.std.specs.Prelude.{◌≤◌};
    ghost use Rattle.turn_table.specs.Passes.{Origin, origin_of};
    ghost use Rattle.turn_table.specs.Steps.{IsTurnTable};

    ghost Value = { Origin O.Opening };

    ghost view = { λ t. origin_of O.opening t.table.shared.table_id t.table.shared.key };

    ghost invariant = { λ t. IsTurnTable t.table.shared.table_id × (1 ≤ t.table.shared.key.passes) };
}

impl<O: Object> Turns<O> {
    /// Starts turns on an object for 1 to 64 passes, each of which has seen the object's whole
    /// history. Where memory runs out the object is dropped.
    pub fn start(alloc: Global, object: O, passes: u8) -> Result<(Turns<O>, Passes<O>), AllocError>
        requires some { 1 ≤ passes }
        requires few { passes ≤ 64 }
        ensures turns { IfOk result (λ made. (made.0.passes ≡ passes) × (made.0.opening ≡ O.opening object)) }
        ensures passes { IfOk result (λ made. made.1.items ≡ newcomers made.0 (O.history object)) }
        ensures from { IfOk result (λ made. All (IsPassOf made.0) made.1.items) }
    {
        let mut all = Vec::with_capacity(alloc, usize::from(passes))?;
        let (table, seat) = seat::start(alloc, object, passes)?;
        passes::make_all(&table, seat, passes, &mut all);
        let door = Mutex::new(());
        Ok((Turns { table, door }, all))
    }

    /// Gives the object back, once all passes are there.
    pub fn close(self, passes: Passes<O>) -> O
        requires { AreAll self passes.items }
        ensures opening { O.opening result ≡ self.opening }
        ensures passes { All (λ pass. Stays O.pass_of (O.legal self.opening) pass.number pass.seen
            (O.history result)) passes.items }
    {
        let Turns { table, door: _ } = self;
        let seat = passes::take_back_all(&table, passes);
        seat::close(table, seat)
    }

    /// Does an operation of the pass in its turn. It may wait for the turn without end.
    ///
    /// Done, it adds one entry to the history. Refused, or where memory ran out, it adds none.
    pub fn act<R: Wait>(&self, rt: &R, pass: &mut Pass<O>, op: O::Op) -> Acted<O::Reply, O::Refusal>
        requires from { IsPassOf self.now pass.old }
        requires may { O.may self.now.opening pass.old.seen pass.old.number
            (own O.pass_of pass.old.number pass.old.seen) op }
        ensures same { pass.new ≡ record pass.old { seen = pass.new.seen } }
        ensures answer { let x = self.now.opening in let k = pass.old.number in
            MatchActed result
            (λ reply. Acts O.pass_of (O.legal x) (λ front e.
            O.stands e k op reply × O.replies x front k op reply) k pass.old.seen pass.new.seen)
            (λ refusal. Stays O.pass_of (O.legal x) k pass.old.seen pass.new.seen × O.refuses x pass.new.seen
            k op refusal)
            (Stays O.pass_of (O.legal x) k pass.old.seen pass.new.seen) }
        ensures surely { O.sure self.now.opening pass.old.seen pass.old.number
            (own O.pass_of pass.old.number pass.old.seen) op
            → IsDid result }
    {
        let _inside = self.come_in(rt);
        turn::act(rt, &self.table, &mut pass.seat, pass.number, op)
    }

    // Comes through the door: at once where nobody is inside, else as soon as it is found open, or
    // after a sleep.
    fn come_in<R: Wait>(&self, rt: &R) -> MutexGuard<'_, ()> {
        for _ in 0..TRIES {
            if let Some(inside) = self.door.try_lock() {
                return inside;
            }
            hint::spin_loop();
        }
        self.door.lock(rt)
    }

    /// The length of a front of the history that holds all that the pass had seen, and that it has
    /// then seen. It takes no turn.
    pub fn latest(&self, pass: &mut Pass<O>) -> u64
        requires { IsPassOf self.now pass.old }
        ensures same { pass.new ≡ record pass.old { seen = pass.new.seen } }
        ensures length { result ≡ length pass.new.seen }
        ensures stays { Stays O.pass_of (O.legal self.now.opening) pass.old.number pass.old.seen pass.new.seen }
    {
        seat::look(&self.table, &mut pass.seat)
    }

    /// A note of what the pass has seen. It takes no turn.
    pub fn note(&self, pass: &mut Pass<O>) -> Note<O>
        requires { IsPassOf self.now pass.old }
        ensures same { pass.new ≡ pass.old }
        ensures note { IsNoteOf self.now result × (result.seen ≡ pass.old.seen) }
    {
        Note {
            seat: seat::note(&self.table, &mut pass.seat),
        }
    }

    /// Lets the pass see all that the note's maker had seen, and perhaps more. It takes no turn.
    pub fn meet(&self, pass: &mut Pass<O>, note: Note<O>)
        requires pass { IsPassOf self.now pass.old }
        requires note { IsNoteOf self.now note }
        ensures same { pass.new ≡ record pass.old { seen = pass.new.seen } }
        ensures stays { Stays O.pass_of (O.legal self.now.opening) pass.old.number pass.old.seen pass.new.seen }
        ensures met { IsFront note.seen pass.new.seen }
    {
        seat::join(&self.table, &mut pass.seat, note.seat);
    }
}
