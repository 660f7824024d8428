ghost use Rattle.std.specs.Prelude.{◌≡◌, ℕ, ◌^◌, ◌%◌, [], ◌∷◌, ◌++◌, true, false, Some, None};
ghost use Rattle.edges.specs.Acted.{MatchActed, IsDid};
ghost use Rattle.edges.specs.Calls.{Acts, Stays};
ghost use Rattle.edges.specs.History.{IsFront, own};
ghost use Rattle.turn_table.specs.Steps.{IsSeatOf, MayTake, MayEnter, MayHandOn, Sees};
ghost use Rattle.turn_table.specs.View.{IsIdle, IsLegal, resting};

use crate::object::Object;
use crate::rule::{COUNT, SERVING, TICKET, TurnSeat, TurnTable, VALUE};
use crate::steps::{Await, Draw, Enter, HandOn, Take};
use edges::Acted;
use std::sync::Wait;
use std::thread;

// One operation in its turn. The turn is handed on whatever the operation comes to.
pub fn act<O: Object, R: Wait>(
    rt: &R,
    table: &TurnTable<O>,
    seat: &mut TurnSeat<O>,
    pass: u8,
    op: O::Op,
) -> Acted<O::Reply, O::Refusal>
    requires table { IsSeatOf table.now.shared.table_id seat.old.table_id }
    requires idle { IsIdle seat.old.me.0 × (seat.old.me.1 ≡ []) }
    requires number { seat.old.me.0.numbers ≡ pass ∷ [] }
    requires may { let seen = seat.old.me.0.seen in
        (x : O.Opening) × (seat.old.me.0.opening ≡ Some x) × O.may x seen pass (own O.pass_of pass seen) op }
    ensures table { seat.new.table_id ≡ seat.old.table_id }
    ensures idle { IsIdle seat.new.me.0 × (seat.new.me.1 ≡ []) }
    ensures same { (seat.new.me.0.numbers ≡ pass ∷ []) × (seat.new.me.0.opening ≡ seat.old.me.0.opening) }
    ensures answer { let old = seat.old.me.0.seen in let new = seat.new.me.0.seen in
        (x : O.Opening) → seat.old.me.0.opening ≡ Some x → MatchActed result
        (λ reply. Acts O.pass_of (O.legal x) (λ front e. O.stands e pass op reply × O.replies x front pass op
        reply) pass old new)
        (λ refusal. Stays O.pass_of (O.legal x) pass old new × O.refuses x new pass op refusal)
        (Stays O.pass_of (O.legal x) pass old new) }
    ensures surely { let seen = seat.old.me.0.seen in
        (x : O.Opening) → seat.old.me.0.opening ≡ Some x →
        O.sure x seen pass (own O.pass_of pass seen) op → IsDid result }
{
    let mut object = take_turn(rt, table, seat);
    match object.apply(pass, op) {
        Acted::Did(reply) => {
            give_entered(table, seat, object);
            Acted::Did(reply)
        }
        not_done => {
            give_back(table, seat, object);
            not_done
        }
    }
}

// Draws a ticket, waits until it is served, and takes the value.
fn take_turn<O: Object, R: Wait>(rt: &R, table: &TurnTable<O>, seat: &mut TurnSeat<O>) -> O
    requires table { IsSeatOf table.now.shared.table_id seat.old.table_id }
    requires idle { IsIdle seat.old.me.0 × (seat.old.me.1 ≡ []) }
    requires number { (k : ℕ) × (seat.old.me.0.numbers ≡ k ∷ []) }
    ensures table { seat.new.table_id ≡ seat.old.table_id }
    ensures out { seat.new.me.1 ≡ (0, None) ∷ [] }
    ensures view { (t : ℕ)
        × (seat.new.me.0 ≡ record seat.old.me.0 {
          seen = O.history result;
          ticket = Some t;
          served = true;
          current = true;
        }) }
    ensures sees { Sees O.pass_of seat.old.me.0.numbers seat.old.me.0.seen (O.history result) }
    ensures is_legal { IsLegal O.legal seat.old.me.0 (O.history result) }
    ensures opening { (x : O.Opening) → seat.old.me.0.opening ≡ Some x → O.opening result ≡ x }
{
    let ticket = draw(table, seat);
    await_turn(rt, table, seat, ticket);
    take(table, seat)
}

// Gives back the value, which has one entry more, and hands the turn on.
fn give_entered<O: Object>(table: &TurnTable<O>, seat: &mut TurnSeat<O>, object: O)
    requires table { IsSeatOf table.now.shared.table_id seat.old.table_id }
    requires out { seat.old.me.1 ≡ (0, None) ∷ [] }
    requires may { MayEnter O.opening O.history O.pass_of O.legal (seat.old.me.0, (0, Some object) ∷ []) }
    ensures table { seat.new.table_id ≡ seat.old.table_id }
    ensures view { seat.new.me ≡ (record (resting seat.old.me.0) { seen = O.history object }, []) }
{
    put(table, seat, object);
    enter(table, seat);
    hand_on(table, seat);
}

// Gives back the value as it was taken, and hands the turn on.
fn give_back<O: Object>(table: &TurnTable<O>, seat: &mut TurnSeat<O>, object: O)
    requires table { IsSeatOf table.now.shared.table_id seat.old.table_id }
    requires out { seat.old.me.1 ≡ (0, None) ∷ [] }
    requires may { MayHandOn O.opening O.history (seat.old.me.0, (0, Some object) ∷ []) }
    ensures table { seat.new.table_id ≡ seat.old.table_id }
    ensures view { seat.new.me ≡ (resting seat.old.me.0, []) }
{
    put(table, seat, object);
    hand_on(table, seat);
}

// Draws a ticket, and answers its number modulo 2^64.
fn draw<O: Object>(table: &TurnTable<O>, seat: &mut TurnSeat<O>) -> u64
    requires table { IsSeatOf table.now.shared.table_id seat.old.table_id }
    requires idle { IsIdle seat.old.me.0 }
    requires number { (k : ℕ) × (seat.old.me.0.numbers ≡ k ∷ []) }
    ensures table { seat.new.table_id ≡ seat.old.table_id }
    ensures drawn { (t : ℕ) × (result ≡ t % 2 ^ 64) × (seat.new.me.0
        ≡ record seat.old.me.0 { ticket = Some t }) }
    ensures holds { seat.new.me.1 ≡ seat.old.me.1 }
{
    table.shared.fetch_add::<Draw<O>>(seat, TICKET, 1)
}

// Looks at the ticket that is served until it is this one. Since the passes come one after the
// other through the door of the turns, the first look finds it; no proof rests on that.
fn await_turn<O: Object, R: Wait>(rt: &R, table: &TurnTable<O>, seat: &mut TurnSeat<O>, ticket: u64)
    requires table { IsSeatOf table.now.shared.table_id seat.old.table_id }
    requires ticket { (t : ℕ) × (ticket ≡ t % 2 ^ 64) × (seat.old.me.0.ticket ≡ Some t) }
    requires not_current { seat.old.me.0.current ≡ false }
    ensures table { seat.new.table_id ≡ seat.old.table_id }
    ensures served { seat.new.me.0 ≡ record seat.old.me.0 { served = true } }
    ensures holds { seat.new.me.1 ≡ seat.old.me.1 }
{
    for _ in rt.forever() {
        if table.shared.load::<Await<O>>(seat, SERVING) == ticket {
            return;
        }
        thread::yield_now();
    }
    unreachable!()
}

// Takes the value out of its slot.
fn take<O: Object>(table: &TurnTable<O>, seat: &mut TurnSeat<O>) -> O
    requires table { IsSeatOf table.now.shared.table_id seat.old.table_id }
    requires may { MayTake seat.old.me }
    ensures table { seat.new.table_id ≡ seat.old.table_id }
    ensures out { seat.new.me.1 ≡ (0, None) ∷ [] }
    ensures view { seat.new.me.0 ≡ record seat.old.me.0 { seen = O.history result; current = true } }
    ensures sees { Sees O.pass_of seat.old.me.0.numbers seat.old.me.0.seen (O.history result) }
    ensures is_legal { IsLegal O.legal seat.old.me.0 (O.history result) }
    ensures opening { (x : O.Opening) → seat.old.me.0.opening ≡ Some x → O.opening result ≡ x }
{
    table.shared.load::<Take<O>>(seat, COUNT);
    let Some(object) = table.shared.exchange(seat, VALUE, None) else {
        unreachable!()
    };
    object
}

// Puts the value into the slot, which the seat still holds.
fn put<O: Object>(table: &TurnTable<O>, seat: &mut TurnSeat<O>, object: O)
    requires table { IsSeatOf table.now.shared.table_id seat.old.table_id }
    requires out { seat.old.me.1 ≡ (0, None) ∷ [] }
    ensures table { seat.new.table_id ≡ seat.old.table_id }
    ensures holds { seat.new.me ≡ (seat.old.me.0, (0, Some object) ∷ []) }
{
    table.shared.exchange(seat, VALUE, Some(object));
}

// Counts the entry that the value has gained.
fn enter<O: Object>(table: &TurnTable<O>, seat: &mut TurnSeat<O>)
    requires table { IsSeatOf table.now.shared.table_id seat.old.table_id }
    requires may { MayEnter O.opening O.history O.pass_of O.legal seat.old.me }
    ensures table { seat.new.table_id ≡ seat.old.table_id }
    ensures seen { (x : O) → seat.old.me.1 ≡ (0, Some x) ∷ []
        → seat.new.me.0 ≡ record seat.old.me.0 { seen = O.history x } }
    ensures holds { seat.new.me.1 ≡ seat.old.me.1 }
{
    table.shared.fetch_add::<Enter<O>>(seat, COUNT, 1);
}

// Gives the value back, and lets the next ticket be served.
fn hand_on<O: Object>(table: &TurnTable<O>, seat: &mut TurnSeat<O>)
    requires table { IsSeatOf table.now.shared.table_id seat.old.table_id }
    requires may { MayHandOn O.opening O.history seat.old.me }
    ensures table { seat.new.table_id ≡ seat.old.table_id }
    ensures view { seat.new.me ≡ (resting seat.old.me.0, []) }
{
    table.shared.fetch_add::<HandOn<O>>(seat, SERVING, 1);
}
