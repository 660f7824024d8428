// The one arm of all operations that take values from the stack and leave one or none.
ghost use Rattle.std.specs.Prelude.{◌≡◌, ◌+◌, ◌<◌, ◌≤◌, ◌^◌, length};
ghost use Rattle.page_code.specs.Ops.{takes};
ghost use Rattle.page_code.specs.declared.instr.Instr.TheVariants as instr;
ghost use Rattle.page_code.specs.declared.op.Op.TheVariants as op;
ghost use Rattle.page_code.specs.declared.operands.PropertyMode.TheVariants as mode;
ghost use Rattle.page_table.specs.Act.{act};
ghost use Rattle.page_table.specs.Program.{Serving};
ghost use Rattle.run_moves.specs.Acted.{Acted, ActedFor};
ghost use Rattle.run_moves.specs.At.{IsRecordsAt, seat_at};
ghost use Rattle.run_moves.specs.Opened.{open_of};
ghost use Rattle.run_parts.specs.Operations.{HasOnePlace};
ghost use Rattle.run_world.specs.Known.{ServesSo};

use crate::at::At;
use crate::flow::Flow;
use crate::frequent::{is_quick, quick};
use crate::landing::{fail, fail_at, land, land_done};
use crate::open::Open;
use page_code::{Name, Op, PropertyMode};
use pg_text::{Place, Text};
use run_parts::{Applied, RequestRecords, find_property, operate, values_taken, write_back};
use run_values::replaced;
use run_world::World;
use std::alloc::Global;

// An operation: its values are taken, and what it made lands on the stack.
#[inline(always)]
pub(crate) fn operation<W: World>(
    alloc: Global,
    at: &At,
    records: &mut RequestRecords,
    op: &Op,
    opened: &mut Open,
    world: &mut W,
) -> Flow
    requires covered { W.covered world.old }
    requires records { IsRecordsAt at.now records.old }
    requires within { at.now.pc + 1 < 2 ^ 64 }
    requires filled { takes op.now ≤ length opened.old.stack }
    ensures covered { W.covered world.new }
    ensures records { IsRecordsAt at.now records.new }
    ensures acted { ActedFor W.reached W.replies (ServesSo W.stores at.now.served.now) (λ serving s.
        act serving (seat_at at.now) at.now.cell.place at.now.pc s (open_of opened.old) (instr.Op op.now))
        world.old world.new (open_of opened.new) result }
    ensures left { opened.new.left ≡ opened.old.left }
{
    if is_quick(op) {
        let done = quick(alloc, at.seat, op, opened, world);
        return land_done(alloc, at, done, opened, world);
    }
    match op {
        Op::SetProperty(name, mode) => match mode.get() {
            PropertyMode::Value { property, place } => {
                let setting = Setting {
                    name,
                    property,
                    place,
                };
                set_value(alloc, at, &setting, opened, world)
            }
            _ => at_one_place(alloc, at, records, op, opened, world),
        },
        _ => at_one_place(alloc, at, records, op, opened, world),
    }
}

// An operation all of whose faults stand at its place.
#[inline(never)]
fn at_one_place<W: World>(
    alloc: Global,
    at: &At,
    records: &mut RequestRecords,
    op: &Op,
    opened: &mut Open,
    world: &mut W,
) -> Flow
    requires covered { W.covered world.old }
    requires records { IsRecordsAt at.now records.old }
    requires within { at.now.pc + 1 < 2 ^ 64 }
    requires filled { takes op.now ≤ length opened.old.stack }
    requires placed { HasOnePlace op.now }
    ensures covered { W.covered world.new }
    ensures records { IsRecordsAt at.now records.new }
    ensures acted { ActedFor W.reached W.replies (ServesSo W.stores at.now.served.now) (λ serving s.
        act serving (seat_at at.now) at.now.cell.place at.now.pc s (open_of opened.old) (instr.Op op.now))
        world.old world.new (open_of opened.new) result }
    ensures left { opened.new.left ≡ opened.old.left }
{
    let held = opened.stack.len();
    let count = values_taken(op);
    prove!(count <= held);
    let made = operate(
        alloc,
        at.served,
        at.seat,
        records,
        Applied {
            op,
            args: opened.stack.top(count),
        },
        world,
    );
    opened.stack.drop_top(count);
    land(alloc, at, made, opened, world)
}

// The property that is set to a value, of what a name finds, and where the value's faults stand.
#[derive(Drop)]
struct Setting<'a> {
    name: &'a Name,
    property: &'a Text,
    place: &'a Place,
}

// Sets a property to the value on top, whose faults stand at a place of their own.
#[inline(never)]
fn set_value<W: World>(
    alloc: Global,
    at: &At,
    setting: &Setting,
    opened: &mut Open,
    world: &mut W,
) -> Flow
    requires covered { W.covered world.old }
    requires within { at.now.pc + 1 < 2 ^ 64 }
    requires filled { 1 ≤ length opened.old.stack }
    ensures covered { W.covered world.new }
    ensures acted { (serving : Serving) → Acted W.reached W.replies (λ s.
        act serving (seat_at at.now) at.now.cell.place at.now.pc s (open_of opened.old)
        (instr.Op (op.SetProperty setting.now.name.now
        (mode.Value setting.now.property.now setting.now.place.now)))) world.old world.new
        (open_of opened.new) result }
    ensures left { opened.new.left ≡ opened.old.left }
{
    let Some(value) = opened.stack.pop() else {
        unreachable!()
    };
    let found = match find_property(setting.name, setting.property, world) {
        Ok(found) => found,
        Err(failed) => return fail(alloc, failed, &at.cell.place, opened, world),
    };
    let made = match replaced(alloc, &found.old, &value) {
        Ok(made) => made,
        Err(failed) => return fail_at(alloc, failed, setting.place, opened, world),
    };
    match write_back(found, setting.property, made, setting.name, world) {
        Ok(()) => Flow::Go(at.pc + 1),
        Err(failed) => fail(alloc, failed, &at.cell.place, opened, world),
    }
}
