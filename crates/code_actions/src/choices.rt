// Parts that run where a test is true, and parts that are tried.
ghost use Rattle.std.specs.Prelude.{◌≡◌, IfOk, option_map};
ghost use Rattle.code_actions.specs.Enclosing.{if_by, tested_by};
ghost use Rattle.page_acts.specs.Views.{variable_of};
ghost use Rattle.code_forms.specs.Codes.{catch_code, form_code};
ghost use Rattle.code_lowering.specs.Lowering.{keeps_fault};

use crate::arranging::arranged_before;
use crate::parting::chosen_above;
use crate::variables::{keeps_fault, sets_given};
use code_forms::{caught, joined};
use page_acts::Variable;
use page_code::{Code, Shape};
use pg_text::{Listed, Place, Text};
use std::alloc::{AllocError, Global};

/// The code that runs one of two parts, behind the values of attributes with these names: `test` is
/// taken, the others are dropped, and the first part runs where it is true, else the second.
fn tested(
    alloc: Global,
    ground: &Shape,
    place: &Place,
    names: &Listed<Text>,
    first: Code,
    second: Code,
) -> Result<Code, AllocError>
    ensures { IfOk result (λ code. code ≡ tested_by ground.now place.now names.now first second) }
{
    let parts = chosen_above(alloc, ground, 1, place, first, second)?;
    arranged_before(alloc, ground, place, &["test"], names, parts)
}

/// The code of `c:if`, behind the values of its attributes. The test's value is kept in the
/// variable, where one is given.
pub(crate) fn if_code(
    alloc: Global,
    ground: &Shape,
    place: &Place,
    variable: &Option<Variable>,
    names: &Listed<Text>,
    body: Code,
) -> Result<Code, AllocError>
    ensures { IfOk result (λ code. code ≡ if_by ground.now place.now (option_map variable_of variable.now)
        names.now body) }
{
    let first = joined(sets_given(alloc, ground, place, variable, true)?, body)?;
    let second = sets_given(alloc, ground, place, variable, false)?;
    tested(alloc, ground, place, names, first, second)
}

/// The code of `c:catch`. The body's own code has one catch more below it.
pub fn catch(
    alloc: Global,
    ground: &Shape,
    place: &Place,
    variable: &Option<Text>,
    body: Code,
) -> Result<Code, AllocError>
    ensures { IfOk result (λ code. code ≡ catch_code ground.now place.now body
        (form_code ground.now (keeps_fault place.now variable.now))) }
{
    let handler = keeps_fault(alloc, ground, place, variable)?;
    caught(alloc, ground, place, body, handler)
}
