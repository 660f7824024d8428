// Where a fault leads.
ghost use Rattle.std.specs.Prelude.{◌≡◌, ◌-◌, length, take};
ghost use Rattle.out_buffer.specs.Writer.{last_of};
ghost use Rattle.page_meaning.specs.Loops.{without_named};
ghost use Rattle.page_table.specs.Landing.{thrown, uncaught, unwound};
ghost use Rattle.page_table.specs.Move.{On};
ghost use Rattle.run_moves.specs.Acted.{Acted};
ghost use Rattle.run_moves.specs.Opened.{open_of};
ghost use Rattle.run_world.specs.Part.{Changes};

use crate::flow::{End, Flow};
use crate::loops::Loops;
use crate::open::Open;
use page_code::{CellPlace, Name};
use pg_text::Place;
use pg_value::RunFault;
use run_values::fault_record;
use run_world::World;
use scopes::HeldScope;
use std::alloc::Global;

// Removes a variable of the current frame, where one is given.
pub(crate) fn remove_named<W: World>(name: &Option<Name>, world: &mut W)
    requires covered { W.covered world.old }
    ensures covered { W.covered world.new }
    ensures removed { Changes W.reached (λ s. without_named name.now s) world.old world.new }
    ensures replies { W.replies world.new ≡ W.replies world.old }
{
    if let Some(name) = name {
        world.remove(HeldScope::Page, name.as_text().as_str());
    }
}

// Ends all loops but so many of the outermost. The variables of those that end go.
fn unwind<W: World>(left: usize, loops: &mut Loops, world: &mut W)
    requires covered { W.covered world.old }
    ensures covered { W.covered world.new }
    ensures loops { loops.new ≡ last_of left loops.old }
    ensures unwound { Changes W.reached (λ s. unwound (take (length loops.old - left) loops.old) s)
        world.old world.new }
    ensures replies { W.replies world.new ≡ W.replies world.old }
{
    while loops.len() > left {
        let Some(innermost) = loops.pop() else {
            unreachable!()
        };
        remove_named(&innermost.variable, world);
        remove_named(&innermost.status, world);
    }
}

// A fault that no catch takes.
fn fall<W: World>(fault: RunFault, place: &Place, opened: &mut Open, world: &mut W) -> Flow
    requires covered { W.covered world.old }
    ensures covered { W.covered world.new }
    ensures acted { Acted W.reached W.replies (λ s. On (uncaught fault place.now s (open_of opened.old)))
        world.old world.new (open_of opened.new) result }
    ensures left { opened.new.left ≡ opened.old.left }
{
    let Ok(place) = place.copy() else {
        return Flow::Over(End::NoMemory);
    };
    unwind(0, &mut opened.loops, world);
    Flow::Over(End::Raised { fault, place })
}

/// Takes a fault of an instruction to the innermost catch, or ends the run.
pub fn throw<W: World>(
    alloc: Global,
    fault: RunFault,
    place: &CellPlace,
    opened: &mut Open,
    world: &mut W,
) -> Flow
    requires covered { W.covered world.old }
    ensures covered { W.covered world.new }
    ensures acted { Acted W.reached W.replies (λ s. On (thrown fault place.now s (open_of opened.old)))
        world.old world.new (open_of opened.new) result }
    ensures left { opened.new.left ≡ opened.old.left }
{
    throw_at(alloc, fault, place.get(), opened, world)
}

/// The same of a fault that stands at a place of its own.
pub fn throw_at<W: World>(
    alloc: Global,
    fault: RunFault,
    place: &Place,
    opened: &mut Open,
    world: &mut W,
) -> Flow
    requires covered { W.covered world.old }
    ensures covered { W.covered world.new }
    ensures acted { Acted W.reached W.replies (λ s. On (thrown fault place.now s (open_of opened.old)))
        world.old world.new (open_of opened.new) result }
    ensures left { opened.new.left ≡ opened.old.left }
{
    if fault.number() > 16 {
        return fall(fault, place, opened, world);
    }
    let Some(innermost) = opened.catches.pop() else {
        return fall(fault, place, opened, world);
    };
    let Ok(record) = fault_record(alloc, fault, place) else {
        return Flow::Over(End::NoMemory);
    };
    opened.stack.cut(innermost.values);
    let Ok(()) = opened.stack.push(record) else {
        return Flow::Over(End::NoMemory);
    };
    unwind(innermost.loops, &mut opened.loops, world);
    world.drop_bodies(innermost.bodies);
    Flow::Go(innermost.to)
}
