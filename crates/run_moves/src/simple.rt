// One instruction that calls nothing.
ghost use Rattle.std.specs.Prelude.{◌≡◌, ◌<◌, ◌^◌, length};
ghost use Rattle.page_table.specs.Act.{act};
ghost use Rattle.page_table.specs.Finds.{Finds};
ghost use Rattle.page_table.specs.Seat.{code_of};
ghost use Rattle.run_moves.specs.Acted.{ActedFor};
ghost use Rattle.run_moves.specs.At.{IsRecordsAt, seat_at};
ghost use Rattle.run_moves.specs.Opened.{open_of};
ghost use Rattle.run_moves.specs.Simple.{IsSimple};
ghost use Rattle.run_world.specs.Known.{ServesSo};

use crate::arms::{
    Ensured, catch_end, catch_start, ensure, jump_if, jump_null, start_body, take, take_body,
};
use crate::at::At;
use crate::flow::Flow;
use crate::leave::leave;
use crate::open::Open;
use crate::operation::operation;
use crate::rounds_arm::{loop_next, loop_start};
use page_code::Instr;
use run_parts::RequestRecords;
use run_world::World;
use std::alloc::Global;

/// Does the instruction of the cell that a run is at, which calls nothing: one move of the
/// instruction table.
#[inline(always)]
pub fn step<W: World>(
    alloc: Global,
    at: &At,
    records: &mut RequestRecords,
    opened: &mut Open,
    world: &mut W,
) -> Flow
    requires covered { W.covered world.old }
    requires records { IsRecordsAt at.now records.old }
    requires within { length (code_of (seat_at at.now)) < 2 ^ 64 }
    requires finds { Finds (length (code_of (seat_at at.now))) at.now.pc (W.kept world.old)
        (open_of opened.old) at.now.cell.instr.now }
    requires simple { IsSimple at.now.cell.instr.now }
    ensures covered { W.covered world.new }
    ensures records { IsRecordsAt at.now records.new }
    ensures acted { ActedFor W.reached W.replies (ServesSo W.stores at.now.served.now) (λ serving s.
        act serving (seat_at at.now) at.now.cell.place at.now.pc s (open_of opened.old)
        at.now.cell.instr.now) world.old world.new (open_of opened.new) result }
    ensures left { opened.new.left ≡ opened.old.left }
{
    let pc = at.pc;
    match at.cell.instr {
        Instr::Op(op) => operation(alloc, at, records, op, opened, world),
        Instr::Take(above) => take(pc, *above, opened, world),
        Instr::StartBody => start_body(pc, opened, world),
        Instr::TakeBody => take_body(alloc, at, opened, world),
        Instr::Jump(size) => Flow::Go(pc + 1 + *size),
        Instr::JumpIf(holds, size) => jump_if(pc, *holds, *size, opened, world),
        Instr::JumpNull(size) => jump_null(pc, *size, opened, world),
        Instr::Ensure {
            variable,
            bean,
            size,
        } => {
            let ensured = Ensured {
                variable,
                bean: bean.get(),
                size: *size,
            };
            ensure(alloc, at, &ensured, opened, world)
        }
        Instr::LoopStart(kind) => loop_start(alloc, at, kind.get(), opened, world),
        Instr::LoopNext(size) => loop_next(alloc, at, *size, opened, world),
        Instr::CatchStart(size) => catch_start(pc, *size, opened, world),
        Instr::CatchEnd => catch_end(pc, opened, world),
        Instr::Leave(how) => leave(alloc, at, how, opened, world),
        Instr::CallOut(_) => unreachable!(),
    }
}
