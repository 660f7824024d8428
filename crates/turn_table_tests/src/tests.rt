//! Turns on an object that adds, refuses 0 and answers its sum.
ghost use Rattle.std.specs.Prelude.{◌≡◌, ◌≢◌, ◌+◌, ◌%◌, ◌^◌, [], All, IfOk, ⊤};
ghost use Rattle.std.specs.List.{sum_by};
ghost use Rattle.turn_table.specs.Passes.{IsPassOf};

use std::alloc::{AllocError, Global};
use std::sync::Wait;
use std::thread;
use turn_table::{Acted, Object, Pass, Turns};

#[derive(Drop)]
struct Addition {
    pass: u8,
    by: u64,
}

#[derive(Drop)]
struct Zero;

/// A sum that wraps around at 2^64.
#[derive(Drop)]
struct Sum {
    opening: u64,
    sum: u64,
    additions: Vec<Addition>,
    ghost adds_up: { sum ≡ (opening + sum_by (λ e. e.by) additions.items) % 2 ^ 64 },
    ghost none_zero: { All (λ e. e.by ≢ 0) additions.items },
}

impl Sum {
    fn new(alloc: Global, opening: u64) -> Self
        ensures { (result.opening ≡ opening) × (result.additions.items ≡ []) }
    {
        Sum {
            opening,
            sum: opening,
            additions: Vec::new(alloc),
        }
    }
}

impl Object for Sum {
    type Op = u64;

    type Reply = u64;

    type Refusal = Zero;

    type Entry = Addition;

    type Opening = u64;

    ghost opening = { λ s. s.opening };

    ghost history = { λ s. s.additions.items };

    ghost pass_of = { λ e. e.pass };

    ghost stands = { λ e pass op reply. e ≡ record { pass = pass; by = op } };

    ghost legal = { λ x history. All (λ e. e.by ≢ 0) history };

    ghost replies = { λ x front pass op reply. reply ≡ (x + sum_by (λ e. e.by) front + op) % 2 ^ 64 };

    ghost refuses = { λ x front pass op refusal. op ≡ 0 };

    ghost may = { λ x front pass entries op. ⊤ };

    ghost sure = { λ x front pass entries op. ⊥ };

    fn len(&self) -> u64 {
        self.additions.len() as u64
    }

    fn apply(&mut self, pass: u8, op: u64) -> Acted<u64, Zero> {
        if op == 0 {
            return Acted::Refused(Zero);
        }
        if self.additions.push(Addition { pass, by: op }).is_err() {
            return Acted::NoMemory;
        }
        self.sum = self.sum.wrapping_add(op);
        Acted::Did(self.sum)
    }

    ghost may_lasts = { λ x front more pass op may same. tt };

    ghost sure_lasts = { λ x front more pass op sure same. sure };
}

/// Turns on a sum that starts at 0, and their two passes.
fn two(alloc: Global) -> Result<(Turns<Sum>, Pass<Sum>, Pass<Sum>), AllocError>
    ensures from { IfOk result (λ t. IsPassOf t.0 t.1 × IsPassOf t.0 t.2) }
    ensures all { IfOk result (λ t. (t.0.passes ≡ 2) × (t.1.number ≡ 0) × (t.2.number ≡ 1)) }
{
    let (turns, mut passes) = Turns::start(alloc, Sum::new(alloc, 0), 2)?;
    match (passes.pop(), passes.pop()) {
        (Some(second), Some(first)) => Ok((turns, first, second)),
        _ => unreachable!(),
    }
}

/// The sum, once both passes are there.
fn close(
    alloc: Global,
    turns: Turns<Sum>,
    first: Pass<Sum>,
    second: Pass<Sum>,
) -> Result<u64, AllocError>
    requires from { IsPassOf turns first × IsPassOf turns second }
    requires all { (turns.passes ≡ 2) × (first.number ≡ 0) × (second.number ≡ 1) }
{
    let passes = Vec::from_array(alloc, [first, second])?;
    Ok(turns.close(passes).sum)
}

/// Adds 1 so many times.
fn add_ones<R: Wait>(rt: &R, turns: &Turns<Sum>, pass: &mut Pass<Sum>, times: u32)
    requires { IsPassOf turns.now pass.old }
    ensures { IsPassOf turns.now pass.new × (pass.new.number ≡ pass.old.number) }
{
    for _ in 0..times {
        turns.act(rt, pass, 1);
    }
}

/// The pass, once it has added 1 so many times.
fn after_adding<R: Wait>(rt: &R, turns: &Turns<Sum>, mut pass: Pass<Sum>, times: u32) -> Pass<Sum>
    requires { IsPassOf turns.now pass }
    ensures { IsPassOf turns.now result × (result.number ≡ pass.number) }
{
    add_ones(rt, turns, &mut pass, times);
    pass
}

#[test]
fn each_pass_sees_one_history(rt: HostRuntime) -> Result<(), AllocError> {
    let alloc = rt.alloc();
    let (turns, mut first, mut second) = two(alloc)?;
    let number = second.number();
    add_ones(&rt, &turns, &mut first, 3);
    let note = turns.note(&mut first);
    let latest = turns.latest(&mut second);
    turns.meet(&mut second, note);
    let met = turns.latest(&mut second);
    let is_refused = matches!(turns.act(&rt, &mut second, 0), Acted::Refused(Zero));
    let kept = turns.latest(&mut second);
    let is_added = matches!(turns.act(&rt, &mut second, 1), Acted::Did(4));
    let sum = close(alloc, turns, first, second)?;
    let is_seen = (latest, met, kept) == (3, 3, 3);
    assert!(rt; is_seen && is_refused && is_added && (number, sum) == (1, 4));
    Ok(())
}

#[test]
fn two_threads_add_two_thousand(rt: HostRuntime) -> Result<(), AllocError> {
    let alloc = rt.alloc();
    let (turns, first, second) = two(alloc)?;
    let (shared, handle) = (&turns, &rt);
    let (first, second) = thread::join(
        &rt,
        move || after_adding(handle, shared, first, 1000),
        move || after_adding(handle, shared, second, 1000),
    );
    assert_eq!(rt; close(alloc, turns, first, second)?, 2000);
    Ok(())
}

/// A thread that waits for its turn leaves its processor to the others, so this ends in a moment.
#[test]
fn more_threads_than_processors_take_turns(rt: HostRuntime) -> Result<(), AllocError> {
    let alloc = rt.alloc();
    let (turns, mut passes) = Turns::start(alloc, Sum::new(alloc, 0), 33)?;
    let Some(mut watcher) = passes.pop() else {
        unreachable!()
    };
    let (shared, handle) = (&turns, &rt);
    thread::for_each_mut(
        &rt,
        &mut passes,
        32,
        &|_, pass| { add_ones(handle, shared, pass, 200) },
    );
    assert_eq!(rt; turns.latest(&mut watcher), 6_400);
    Ok(())
}
