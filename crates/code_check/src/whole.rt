ghost use Rattle.std.specs.Prelude.{◌≡◌, ◌<◌, ◌+◌, ◌^◌, ◌&&◌};
ghost use Rattle.std.specs.Bool.{Decides};
ghost use Rattle.page_code.specs.Fits.{CodeFits};
ghost use Rattle.code_check.specs.ReadChecks.{all_fit, cell_fits, code_fits};

use crate::cells::carries_nothing;
use crate::instructions::instr_fits;
use crate::open::{is_roomy, opened};
use page_code::{Cell, Code};

/// Whether the shapes that a code carries fit, which is where it can be run from its first cell and
/// never misses what an instruction takes. Goes over the code once, forward, and takes no memory.
#[tactic(auto, using(crate::proofs::Decided::code_decides))]
pub fn check(code: &Code) -> bool
    ensures { Decides result (CodeFits code.now) }
{
    begins_and_fits(code.as_slice())
}

// The first cell has nothing open, and all cells fit.
fn begins_and_fits(code: &[Cell]) -> bool
    ensures { result ≡ code_fits code.now }
{
    carries_nothing(code, 0) && are_fit(code)
}

// All cells fit.
fn are_fit(code: &[Cell]) -> bool
    ensures { result ≡ all_fit code.now 0 code.now }
{
    for (pc, cell) in code.iter().enumerate() {
        if !is_fit(code, pc, cell) {
            return false;
        }
    }
    true
}

// A cell fits at its place.
fn is_fit(code: &[Cell], pc: usize, cell: &Cell) -> bool
    requires { pc + 1 < 2 ^ 64 }
    ensures { result ≡ cell_fits code.now pc cell.now }
{
    let open = opened(cell.shape.get());
    is_roomy(open) && instr_fits(code, pc, open, &cell.instr)
}
