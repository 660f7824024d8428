// Calls that hand nothing down, and whose output may be kept.
ghost use Rattle.std.specs.Prelude.{◌≡◌, ◌++◌, [], ◌∷◌, IfOk, option_map};
ghost use Rattle.page_acts.specs.Views.{variable_of};
ghost use Rattle.page_code.specs.Shapes.{cell, keeping, up};
ghost use Rattle.page_code.specs.declared.call.CallOut.TheVariants as call_is;
ghost use Rattle.page_code.specs.declared.instr.Instr.TheVariants as instr;
ghost use Rattle.code_forms.specs.Codes.{form_code};
ghost use Rattle.code_forms.specs.Forms.{calls, imported_page, own_body, own_fragment};
ghost use Rattle.code_lowering.specs.Lowering.{kept_in, sets};

use crate::variables::sets;
use code_forms::{call, joined, kept};
use page_acts::Variable;
use page_code::{CallOut, Code, Shape};
use pg_text::{Place, Text};
use std::alloc::{AllocError, Global};

/// The code of `jsp:doBody`.
pub fn do_body(
    alloc: Global,
    ground: &Shape,
    place: &Place,
    variable: &Option<Variable>,
) -> Result<Code, AllocError>
    ensures { IfOk result (λ code. code ≡ form_code ground.now
        (kept_in place.now (option_map variable_of variable.now) (calls own_body place.now))) }
{
    match variable {
        None => called(alloc, ground, 0, place, CallOut::Body),
        Some(variable) => {
            let part = called(alloc, &ground.keeping()?, 0, place, CallOut::Body)?;
            kept_as(alloc, ground, 0, place, variable, part)
        }
    }
}

/// The code of `jsp:invoke`.
pub fn invoke(
    alloc: Global,
    ground: &Shape,
    place: &Place,
    fragment: &Text,
    variable: &Option<Variable>,
) -> Result<Code, AllocError>
    ensures { IfOk result (λ code. code ≡ form_code ground.now
        (kept_in place.now (option_map variable_of variable.now) (calls (own_fragment fragment.now) place.now))) }
{
    match variable {
        None => fragment_called(alloc, ground, place, fragment),
        Some(variable) => {
            let part = fragment_called(alloc, &ground.keeping()?, place, fragment)?;
            kept_as(alloc, ground, 0, place, variable, part)
        }
    }
}

/// The code of `c:import` behind its url.
pub(crate) fn import(
    alloc: Global,
    ground: &Shape,
    place: &Place,
    variable: &Option<Variable>,
) -> Result<Code, AllocError>
    ensures { IfOk result (λ code. code ≡ form_code ground.now
        (kept_in place.now (option_map variable_of variable.now) (calls imported_page place.now))) }
{
    match variable {
        None => called(alloc, ground, 1, place, CallOut::Import),
        Some(variable) => {
            let part = called(alloc, &ground.keeping()?, 1, place, CallOut::Import)?;
            kept_as(alloc, ground, 1, place, variable, part)
        }
    }
}

// The code of the call of a fragment.
fn fragment_called(
    alloc: Global,
    ground: &Shape,
    place: &Place,
    fragment: &Text,
) -> Result<Code, AllocError>
    ensures { IfOk result (λ code. code ≡ cell (up 0 ground.now) place.now
        (instr.CallOut (call_is.Fragment fragment.now)) ∷ []) }
{
    called(alloc, ground, 0, place, CallOut::Fragment(fragment.copy()?))
}

// The code of a call that takes so many values.
fn called(
    alloc: Global,
    ground: &Shape,
    taken: usize,
    place: &Place,
    what: CallOut,
) -> Result<Code, AllocError>
    ensures { IfOk result (λ code. code ≡ cell (up taken ground.now) place.now (instr.CallOut what) ∷ []) }
{
    call(alloc, &ground.up(taken)?, place, what)
}

// The code of a part that takes so many values, and whose text becomes a variable.
fn kept_as(
    alloc: Global,
    ground: &Shape,
    taken: usize,
    place: &Place,
    variable: &Variable,
    part: Code,
) -> Result<Code, AllocError>
    ensures { IfOk result (λ code. code
        ≡ (cell (up taken ground.now) place.now instr.StartBody
        ∷ (part ++ cell (keeping ground.now) place.now instr.TakeBody ∷ [])) ++ form_code ground.now
        (sets place.now (variable_of variable.now))) }
{
    let text = kept(alloc, &ground.up(taken)?, ground, place, part)?;
    joined(text, sets(alloc, ground, place, variable)?)
}
