// The run of a code.
ghost use Rattle.std.specs.Prelude.{◌≡◌, ◌+◌, ◌<◌, ◌^◌, IfSome, IsTrue, length};
ghost use Rattle.page_code.specs.Fits.{Carries};
ghost use Rattle.page_code.specs.Shapes.{empty_shape};
ghost use Rattle.page_code.specs.Tables.{IsCellAt};
ghost use Rattle.page_code.specs.declared.instr.Instr.TheVariants as instr;
ghost use Rattle.page_machine.specs.Turn.{CallBegins, CodeRuns, Ran, SeatHolds, StandsInCode, Stepped};
ghost use Rattle.page_table.specs.Act.{act, called_out, move_of};
ghost use Rattle.page_table.specs.Checked.{SeatFits};
ghost use Rattle.page_table.specs.Finds.{CallFinds, Finds};
ghost use Rattle.page_table.specs.Seat.{code_of};
ghost use Rattle.run_moves.specs.Acted.{ActedFor};
ghost use Rattle.run_moves.specs.At.{IsRecordsAt, seat_at};
ghost use Rattle.run_moves.specs.Opened.{open_of};
ghost use Rattle.run_moves.specs.Quick.{is_quick};
ghost use Rattle.run_moves.specs.Simple.{IsSimple};
ghost use Rattle.run_parts.specs.Records.{IsRecordsOf};
ghost use Rattle.run_world.specs.Known.{Known, ServesSo};
ghost use Rattle.run_world.specs.Seats.{params_at, seat_of};

use crate::calls::{given_call, tag_call};
use crate::pages::{import_call, include_call};
use page_code::{CallOut, CellRef, Instr, Op, PackedCode};
use run_moves::{At, End, Flow, Open, fail, is_quick, quick, step};
use run_parts::RequestRecords;
use run_world::{Seat, Served, World};
use std::alloc::Global;

/// Where the run of a code begins: its seat, a place in it, and so many levels left below it.
#[derive(Drop)]
pub(crate) struct CodeStart<'a> {
    pub seat: &'a Seat<'a>,
    pub pc: usize,
    pub left: u32,
}

/// Runs a checked code from a place in it to its end.
#[cycle(machine)]
pub(crate) fn run_code<'a, W: World>(
    alloc: Global,
    served: &'a Served<'a>,
    start: CodeStart<'a>,
    records: &mut RequestRecords,
    world: &mut W,
) -> End
    requires covered { W.covered world.old }
    requires records { IsRecordsOf served.now.request.now (params_at start.seat.now) records.old }
    requires known { Known W.reached W.stores served.now world.old }
    requires seat { SeatFits (seat_of start.seat.now) }
    requires holds { SeatHolds (seat_of start.seat.now) (length (W.variables world.old).frames) }
    requires at { Carries (code_of (seat_of start.seat.now)) start.pc empty_shape }
    ensures covered { W.covered world.new }
    ensures records { IsRecordsOf served.now.request.now (params_at start.entry.seat.now) records.new }
    ensures ran { Ran W.reached W.replies (ServesSo W.stores served.now)
        (CodeRuns (seat_of start.entry.seat.now) start.entry.pc start.entry.left) world.old world.new result }
{
    let seat = start.seat;
    let code = seat.code();
    let mut opened = Open::fresh(alloc, start.left);
    let mut pc = start.pc;
    loop {
        let cell = cell_of(code, pc);
        let Some(op) = frequent_of(&cell) else {
            let at = At {
                served,
                seat,
                pc,
                cell,
            };
            match turn(alloc, &at, records, &mut opened, world) {
                Flow::Go(to) => {
                    pc = to;
                    continue;
                }
                Flow::Over(end) => return end,
            }
        };
        match quick(alloc, seat, op, &mut opened, world) {
            Ok(()) => pc += 1,
            Err(failed) => {
                let place = cell.place;
                match fail(alloc, failed, &place, &mut opened, world) {
                    Flow::Go(to) => pc = to,
                    Flow::Over(end) => return end,
                }
            }
        }
    }
}

// The cell of a place in a code.
#[inline(always)]
fn cell_of(code: &PackedCode, pc: usize) -> CellRef<'_>
    requires within { pc < length code.now }
    ensures cell { IsCellAt code.now pc result.instr.now result.place }
    ensures counted { length code.now < 2 ^ 64 }
    ensures next { pc + 1 < 2 ^ 64 }
{
    if pc >= code.len() {
        unreachable!()
    }
    code.cell(pc)
}

// The frequent operation that a cell is, if it is one.
#[inline(always)]
fn frequent_of<'a>(cell: &CellRef<'a>) -> Option<&'a Op>
    ensures { IfSome result (λ op. (cell.now.instr.now ≡ instr.Op op.now) × IsTrue (is_quick op.now)) }
{
    match cell.instr {
        Instr::Op(op) if is_quick(op) => Some(op),
        _ => None,
    }
}

// Does the instruction that a run is at, with the run that it calls, if it calls one.
#[cycle(machine)]
#[inline(always)]
fn turn<W: World>(
    alloc: Global,
    at: &At,
    records: &mut RequestRecords,
    opened: &mut Open,
    world: &mut W,
) -> Flow
    requires covered { W.covered world.old }
    requires records { IsRecordsAt at.now records.old }
    requires known { Known W.reached W.stores at.now.served.now world.old }
    requires seat { SeatFits (seat_at at.now) }
    requires holds { SeatHolds (seat_at at.now) (length (W.variables world.old).frames) }
    requires cell { IsCellAt (code_of (seat_at at.now)) at.now.pc at.now.cell.instr.now at.now.cell.place }
    requires within { length (code_of (seat_at at.now)) < 2 ^ 64 }
    requires standing { StandsInCode (seat_at at.now) at.now.pc (W.kept world.old) (open_of opened.old) }
    ensures covered { W.covered world.new }
    ensures records { IsRecordsAt at.now records.new }
    ensures stepped { Stepped W.reached W.replies (ServesSo W.stores at.now.served.now) (seat_at at.now)
        (λ serving s. move_of serving (seat_at at.now) at.now.pc s (open_of opened.old)) world.old world.new
        (open_of opened.new) result }
    ensures left { opened.new.left ≡ opened.old.left }
{
    match at.cell.instr {
        Instr::CallOut(what) => call_out(alloc, at, records, what, opened, world),
        _ => step_alone(alloc, at, records, opened, world),
    }
}

// Does an instruction that calls nothing, so that what this takes of the stack stands under no call.
#[inline(never)]
fn step_alone<W: World>(
    alloc: Global,
    at: &At,
    records: &mut RequestRecords,
    opened: &mut Open,
    world: &mut W,
) -> Flow
    requires covered { W.covered world.old }
    requires records { IsRecordsAt at.now records.old }
    requires within { length (code_of (seat_at at.now)) < 2 ^ 64 }
    requires finds { Finds (length (code_of (seat_at at.now))) at.now.pc (W.kept world.old)
        (open_of opened.old) at.now.cell.instr.now }
    requires simple { IsSimple at.now.cell.instr.now }
    ensures covered { W.covered world.new }
    ensures records { IsRecordsAt at.now records.new }
    ensures acted { ActedFor W.reached W.replies (ServesSo W.stores at.now.served.now) (λ serving s.
        act serving (seat_at at.now) at.now.cell.place at.now.pc s (open_of opened.old)
        at.now.cell.instr.now) world.old world.new (open_of opened.new) result }
    ensures left { opened.new.left ≡ opened.old.left }
{
    step(alloc, at, records, opened, world)
}

// Does one call, with the run that it goes into.
#[cycle(machine)]
#[inline(never)]
fn call_out<W: World>(
    alloc: Global,
    at: &At,
    records: &mut RequestRecords,
    what: &CallOut,
    opened: &mut Open,
    world: &mut W,
) -> Flow
    requires covered { W.covered world.old }
    requires records { IsRecordsAt at.now records.old }
    requires known { Known W.reached W.stores at.now.served.now world.old }
    requires seat { SeatFits (seat_at at.now) }
    requires holds { SeatHolds (seat_at at.now) (length (W.variables world.old).frames) }
    requires within { length (code_of (seat_at at.now)) < 2 ^ 64 }
    requires begins { CallBegins (code_of (seat_at at.now)) (at.now.pc + 1) what.now }
    requires finds { CallFinds (length (code_of (seat_at at.now))) (at.now.pc + 1) (open_of opened.old) what.now }
    ensures covered { W.covered world.new }
    ensures records { IsRecordsAt at.now records.new }
    ensures stepped { Stepped W.reached W.replies (ServesSo W.stores at.now.served.now) (seat_at at.now)
        (λ serving s. called_out serving (seat_at at.now) at.now.cell.place (at.now.pc + 1) what.now s
        (open_of opened.old)) world.old world.new (open_of opened.new) result }
    ensures left { opened.new.left ≡ opened.old.left }
{
    match what {
        CallOut::Tag(call) => tag_call(alloc, at, records, call.get(), opened, world),
        CallOut::Body => given_call(alloc, at, records, None, opened, world),
        CallOut::Fragment(name) => given_call(alloc, at, records, Some(name), opened, world),
        CallOut::Include { flush, params } => {
            include_call(alloc, at, records, *flush, *params, opened, world)
        }
        CallOut::Import => import_call(alloc, at, records, opened, world),
    }
}
