ghost use Rattle.std.specs.Prelude.{◌≡◌, ◌<◌, ◌+◌, ◌^◌};
ghost use Rattle.code_check.specs.ReadChecks.{fits, fits_branch, fits_loop, fits_null_branch};
ghost use Rattle.code_check.specs.ReadChecks.{fits_op, fits_round};

use crate::calls::{call_fits, leave_fits};
use crate::cells::{carries_ahead, carries_catch, carries_more, carries_same, closes_catch};
use crate::open::{Open, can_take_values, without};
use page_code::{Cell, Instr, LoopKind, Op};

/// An instruction finds what it takes, and each place to which it may go carries what it leaves.
pub(crate) fn instr_fits(code: &[Cell], pc: usize, open: Open<'_>, instr: &Instr) -> bool
    requires { pc + 1 < 2 ^ 64 }
    ensures { result ≡ fits code.now pc open.entry.values open.entry.bodies open.entry.loops
        open.entry.catches.now instr.now }
{
    let next = pc + 1;
    match instr {
        Instr::Op(op) => op_fits(code, next, open, op),
        Instr::Take(below) => {
            can_take_values(open, *below as u128 + 1) && carries_same(code, next, open)
        }
        Instr::StartBody => carries_more(code, next, open, 0, 1, 0),
        Instr::TakeBody => {
            0 < open.bodies
                && carries_more(
                    code,
                    next,
                    Open {
                        bodies: open.bodies - 1,
                        ..open
                    },
                    1,
                    0,
                    0,
                )
        }
        Instr::Jump(size) => carries_ahead(code, next, *size, open, 0),
        Instr::JumpIf(_, size) => branch_fits(code, next, *size, open),
        Instr::JumpNull(size) => null_branch_fits(code, next, *size, open),
        Instr::Ensure { size, .. } => {
            carries_same(code, next, open) && carries_ahead(code, next, *size, open, 0)
        }
        Instr::LoopStart(kind) => loop_fits(code, next, open, kind.get()),
        Instr::LoopNext(size) => round_fits(code, pc, *size, open),
        Instr::CatchStart(size) => {
            carries_catch(code, next, open) && carries_ahead(code, next, *size, open, 1)
        }
        Instr::CatchEnd => closes_catch(code, next, open),
        Instr::CallOut(call) => call_fits(code, next, open, call),
        Instr::Leave(leave) => leave_fits(open, *leave),
    }
}

// An operation finds what it takes, and the next cell carries what it leaves.
fn op_fits(code: &[Cell], next: usize, open: Open<'_>, op: &Op) -> bool
    ensures { result ≡ fits_op code.now next open.entry.values open.entry.bodies open.entry.loops
        open.entry.catches.now op.now }
{
    let count = op.takes();
    can_take_values(open, count)
        && carries_more(code, next, without(open, count), op.leaves(), 0, 0)
}

// A jump that takes the value on top in any case.
fn branch_fits(code: &[Cell], next: usize, size: usize, open: Open<'_>) -> bool
    ensures { result ≡ fits_branch code.now next size open.entry.values open.entry.bodies open.entry.loops
        open.entry.catches.now }
{
    can_take_values(open, 1)
        && carries_same(code, next, without(open, 1))
        && carries_ahead(code, next, size, without(open, 1), 0)
}

// A jump that takes the value on top where it jumps.
fn null_branch_fits(code: &[Cell], next: usize, size: usize, open: Open<'_>) -> bool
    ensures { result ≡ fits_null_branch code.now next size open.entry.values open.entry.bodies
        open.entry.loops open.entry.catches.now }
{
    can_take_values(open, 1)
        && carries_same(code, next, open)
        && carries_ahead(code, next, size, without(open, 1), 0)
}

// The beginning of a loop finds the values that it takes, and the next cell has one loop more.
fn loop_fits(code: &[Cell], next: usize, open: Open<'_>, kind: &LoopKind) -> bool
    ensures { result ≡ fits_loop code.now next open.entry.values open.entry.bodies open.entry.loops
        open.entry.catches.now kind.now }
{
    let count = kind.names.len() as u128;
    can_take_values(open, count) && carries_more(code, next, without(open, count), 0, 0, 1)
}

// A loop is open, its rounds begin in the code where as much stands open, and the next cell has one
// loop less.
fn round_fits(code: &[Cell], pc: usize, size: usize, open: Open<'_>) -> bool
    requires { pc + 1 < 2 ^ 64 }
    ensures { result ≡ fits_round code.now pc size open.entry.values open.entry.bodies open.entry.loops
        open.entry.catches.now }
{
    0 < open.loops
        && size <= pc
        && carries_same(
            code,
            pc + 1,
            Open {
                loops: open.loops - 1,
                ..open
            },
        )
        && carries_same(code, pc - size, open)
}
