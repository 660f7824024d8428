// The beginning of a loop, and its rounds.
ghost use Rattle.std.specs.Prelude.{◌≡◌, ◌+◌, ◌-◌, ◌<◌, ◌≤◌, ◌^◌, ◌∷◌, length, reverse, take, List};
ghost use Rattle.std.specs.Prelude.{Some, IfOk};
ghost use Rattle.page_meaning.specs.Attributes.{table_of};
ghost use Rattle.page_meaning.specs.Loops.{round_begun, set_status, with_named};
ghost use Rattle.page_meaning.specs.Rounds.{Round, status_record};
ghost use Rattle.page_meaning.specs.Went.{Well};
ghost use Rattle.page_meaning.specs.Work.{visit};
ghost use Rattle.page_table.specs.LoopMoves.{loop_next, loop_opened};
ghost use Rattle.page_table.specs.Move.{On, popped_all};
ghost use Rattle.pg_text.specs.Failure.{AnswersAs};
ghost use Rattle.pg_value.specs.Value.{datum_of};
ghost use Rattle.run_moves.specs.Acted.{Acted};
ghost use Rattle.run_moves.specs.Loops.{loop_of};
ghost use Rattle.run_moves.specs.Opened.{open_of};
ghost use Rattle.run_moves.specs.Rounds.{loop_answer};
ghost use Rattle.run_values.specs.Rounds.{round_at};
ghost use Rattle.run_world.specs.Part.{Doing};

use crate::at::At;
use crate::flow::{End, Flow};
use crate::landing::fail;
use crate::loops::Loop;
use crate::open::Open;
use crate::raising::remove_named;
use page_code::{LoopKind, Name};
use pg_text::Failure;
use pg_value::{RunFault, Value};
use run_values::{Mark, Statuses, measured, rounds_of, table_of};
use run_world::World;
use scopes::HeldScope;
use std::alloc::{AllocError, Global};

// A loop begins with the values that it takes: X7, X8.
#[inline(never)]
pub(crate) fn loop_start<W: World>(
    alloc: Global,
    at: &At,
    kind: &LoopKind,
    opened: &mut Open,
    world: &mut W,
) -> Flow
    requires covered { W.covered world.old }
    requires within { at.now.pc + 1 < 2 ^ 64 }
    requires filled { length kind.now.names ≤ length opened.old.stack }
    ensures covered { W.covered world.new }
    ensures acted { Acted W.reached W.replies (λ s. popped_all (length kind.now.names) (open_of opened.old)
        (λ ds p. On (loop_opened at.now.cell.place kind.now (table_of kind.now.names ds) (at.now.pc + 1) s p)))
        world.old world.new (open_of opened.new) result }
    ensures left { opened.new.left ≡ opened.old.left }
{
    let count = kind.names.len();
    let made = new_loop(alloc, kind, opened);
    opened.stack.drop_top(count);
    let looping = match made {
        Ok(looping) => looping,
        Err(failed) => return fail(alloc, failed, &at.cell.place, opened, world),
    };
    match opened.loops.push(looping) {
        Ok(()) => Flow::Go(at.pc + 1),
        Err(_) => Flow::Over(End::NoMemory),
    }
}

// The loop that the values on top open.
fn new_loop(alloc: Global, kind: &LoopKind, opened: &Open) -> Result<Loop, Failure<RunFault>>
    requires { length kind.now.names ≤ length opened.now.stack }
    ensures { AnswersAs loop_of (loop_answer kind.now
        (table_of kind.now.names (reverse (take (length kind.now.names) (open_of opened.now).stack)))) result }
{
    let values = table_of(
        alloc,
        kind.names.as_slice(),
        opened.stack.top(kind.names.len()),
    )?;
    let rounds = rounds_of(alloc, kind.over, &values)?;
    Ok(Loop {
        variable: copied(&kind.variable)?,
        status: copied(&kind.status)?,
        statuses: Statuses::new(values),
        rounds,
    })
}

// A copy of the name of a loop's variable, where it has one.
fn copied(name: &Option<Name>) -> Result<Option<Name>, AllocError>
    ensures { IfOk result (λ copy. copy ≡ name.now) }
{
    match name {
        Some(name) => Ok(Some(name.copy()?)),
        None => Ok(None),
    }
}

// The next round of the innermost loop, so many cells back; behind the last one the loop ends.
#[inline(never)]
pub(crate) fn loop_next<W: World>(
    alloc: Global,
    at: &At,
    size: usize,
    opened: &mut Open,
    world: &mut W,
) -> Flow
    requires covered { W.covered world.old }
    requires within { at.now.pc + 1 < 2 ^ 64 }
    requires back { size ≤ at.now.pc }
    requires opened { 1 ≤ length opened.old.loops }
    ensures covered { W.covered world.new }
    ensures acted { Acted W.reached W.replies (λ s. loop_next at.now.cell.place (open_of opened.old).loops
        (at.now.pc - size) (at.now.pc + 1) s (open_of opened.old)) world.old world.new (open_of opened.new) result }
    ensures left { opened.new.left ≡ opened.old.left }
{
    let Some(innermost) = opened.loops.innermost() else {
        unreachable!()
    };
    let Some(mark) = innermost.rounds.next() else {
        let Some(ended) = opened.loops.pop() else {
            unreachable!()
        };
        remove_named(&ended.variable, world);
        remove_named(&ended.status, world);
        return Flow::Go(at.pc + 1);
    };
    match opened.loops.begin_round(alloc, &mark, world) {
        Ok(()) => {
            opened.loops.advance();
            Flow::Go(at.pc - size)
        }
        Err(failed) => fail(alloc, failed, &at.cell.place, opened, world),
    }
}

/// A round of a loop begins: its visit is counted, and both variables are set: X18, X20.
pub(crate) fn begin_round<W: World>(
    alloc: Global,
    looping: &mut Loop,
    mark: &Mark,
    world: &mut W,
) -> Result<(), Failure<RunFault>>
    requires covered { W.covered world.old }
    ensures covered { W.covered world.new }
    ensures same { loop_of looping.new ≡ loop_of looping.old }
    ensures does { (r : Round) (rest : List Round) → looping.old.rounds ≡ r ∷ rest →
        r.index ≡ mark.now.index → r.count ≡ mark.now.count → r.is_last ≡ mark.now.is_last
        → Doing W.reached W.replies (λ u. u)
        (λ place. round_begun place looping.old.variable looping.old.status looping.old.statuses r)
        world.old world.new result }
{
    count_visit(world)?;
    let item = looping.rounds.item(alloc)?;
    let Some(status) = &looping.status else {
        return set_named(&looping.variable, item, world);
    };
    set_named(&looping.variable, item.copy()?, world)?;
    set_status(status, &mut looping.statuses, mark, item, world)
}

// Counts a visit: X18.
fn count_visit<W: World>(world: &mut W) -> Result<(), Failure<RunFault>>
    requires covered { W.covered world.old }
    ensures covered { W.covered world.new }
    ensures does { Doing W.reached W.replies (λ u. u) (λ place. visit place) world.old world.new result }
{
    if world.visit() {
        Ok(())
    } else {
        Err(Failure::Fault(RunFault::TooMuchWork))
    }
}

// Sets a variable of the current frame, where it has a name.
fn set_named<W: World>(
    name: &Option<Name>,
    value: Value,
    world: &mut W,
) -> Result<(), Failure<RunFault>>
    requires covered { W.covered world.old }
    ensures covered { W.covered world.new }
    ensures does { Doing W.reached W.replies (λ u. u) (λ place s.
        Well tt (with_named name.now (datum_of value) s)) world.old world.new result }
{
    match name {
        Some(name) => world.set(HeldScope::Page, name.as_text(), value),
        None => Ok(()),
    }
}

// Sets the status of a round: X20.
fn set_status<W: World>(
    name: &Name,
    statuses: &mut Statuses,
    mark: &Mark,
    item: Value,
    world: &mut W,
) -> Result<(), Failure<RunFault>>
    requires covered { W.covered world.old }
    ensures covered { W.covered world.new }
    ensures same { statuses.new ≡ statuses.old }
    ensures does { Doing W.reached W.replies (λ u. u)
        (λ place. set_status place (Some name.now) (status_record statuses.old (round_at mark.now)
        (datum_of item))) world.old world.new result }
{
    let made = statuses.status(mark, item)?;
    let status = measured(made)?;
    world.set(HeldScope::Page, name.as_text(), status)
}
