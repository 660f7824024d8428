// Where a run goes on after an instruction, by what that made.
ghost use Rattle.std.specs.Prelude.{◌≡◌, ◌+◌, ◌<◌, ◌^◌, Err};
ghost use Rattle.pg_text.specs.declared.failure.Failure.TheVariants as failure;
ghost use Rattle.run_moves.specs.Acted.{Acted};
ghost use Rattle.run_moves.specs.Landing.{failing, landing};
ghost use Rattle.run_moves.specs.Opened.{open_of};
ghost use Rattle.run_moves.specs.declared.flow.End.TheVariants as end;
ghost use Rattle.run_moves.specs.declared.flow.Flow.TheVariants as flow;
ghost use Rattle.run_parts.specs.Answers.{none_of};

use crate::at::At;
use crate::flow::{End, Flow};
use crate::open::Open;
use crate::raising::throw_at;
use page_code::CellPlace;
use pg_text::{Failure, Place};
use pg_value::{RunFault, Value};
use run_world::World;
use std::alloc::Global;

/// Goes on where a fault of an instruction leads; where memory ran out the run is over.
#[inline(never)]
pub fn fail<W: World>(
    alloc: Global,
    failed: Failure<RunFault>,
    place: &CellPlace,
    opened: &mut Open,
    world: &mut W,
) -> Flow
    requires covered { W.covered world.old }
    ensures covered { W.covered world.new }
    ensures acted { Acted W.reached W.replies (failing place.now (open_of opened.old) failed) world.old world.new
        (open_of opened.new) result }
    ensures short { failed ≡ failure.NoMemory → (result ≡ flow.Over end.NoMemory) × (world.new ≡ world.old) }
    ensures left { opened.new.left ≡ opened.old.left }
{
    fail_at(alloc, failed, place.get(), opened, world)
}

// The same of a fault that stands at a place of its own.
pub(crate) fn fail_at<W: World>(
    alloc: Global,
    failed: Failure<RunFault>,
    place: &Place,
    opened: &mut Open,
    world: &mut W,
) -> Flow
    requires covered { W.covered world.old }
    ensures covered { W.covered world.new }
    ensures acted { Acted W.reached W.replies (failing place.now (open_of opened.old) failed) world.old world.new
        (open_of opened.new) result }
    ensures short { failed ≡ failure.NoMemory → (result ≡ flow.Over end.NoMemory) × (world.new ≡ world.old) }
    ensures left { opened.new.left ≡ opened.old.left }
{
    match failed {
        Failure::Fault(fault) => throw_at(alloc, fault, place, opened, world),
        Failure::NoMemory => Flow::Over(End::NoMemory),
    }
}

// Goes on behind the instruction with what was made, or where its fault leads.
#[inline(always)]
pub(crate) fn land<W: World>(
    alloc: Global,
    at: &At,
    made: Result<Option<Value>, Failure<RunFault>>,
    opened: &mut Open,
    world: &mut W,
) -> Flow
    requires covered { W.covered world.old }
    requires within { at.now.pc + 1 < 2 ^ 64 }
    ensures covered { W.covered world.new }
    ensures acted { Acted W.reached W.replies (landing at.now.pc at.now.cell.place (open_of opened.old) made)
        world.old world.new (open_of opened.new) result }
    ensures short { made ≡ Err failure.NoMemory → (result ≡ flow.Over end.NoMemory) × (world.new ≡ world.old) }
    ensures left { opened.new.left ≡ opened.old.left }
{
    let made = match made {
        Ok(made) => made,
        Err(failed) => return fail(alloc, failed, &at.cell.place, opened, world),
    };
    let Some(value) = made else {
        return Flow::Go(at.pc + 1);
    };
    match opened.stack.push(value) {
        Ok(()) => Flow::Go(at.pc + 1),
        Err(_) => Flow::Over(End::NoMemory),
    }
}

// Goes on behind the instruction where it was done, or where its fault leads.
#[inline(always)]
pub(crate) fn land_done<W: World>(
    alloc: Global,
    at: &At,
    done: Result<(), Failure<RunFault>>,
    opened: &mut Open,
    world: &mut W,
) -> Flow
    requires covered { W.covered world.old }
    requires within { at.now.pc + 1 < 2 ^ 64 }
    ensures covered { W.covered world.new }
    ensures acted { Acted W.reached W.replies (landing at.now.pc at.now.cell.place (open_of opened.old)
        (none_of done)) world.old world.new (open_of opened.new) result }
    ensures short { done ≡ Err failure.NoMemory → (result ≡ flow.Over end.NoMemory) × (world.new ≡ world.old) }
    ensures left { opened.new.left ≡ opened.old.left }
{
    match done {
        Ok(()) => Flow::Go(at.pc + 1),
        Err(failed) => fail(alloc, failed, &at.cell.place, opened, world),
    }
}
