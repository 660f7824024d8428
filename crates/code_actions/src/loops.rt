// Loops.
ghost use Rattle.std.specs.Prelude.{◌≡◌, IfOk};
ghost use Rattle.code_actions.specs.Enclosing.{each_by};
ghost use Rattle.code_lowering.specs.Lowering.{loop_kind};

use crate::variables::name_if_given;
use code_forms::looped;
use page_code::{Code, LoopKind, Over, Shape};
use pg_text::{Listed, Place, Text};
use std::alloc::{AllocError, Global};

/// A loop over the values with these names, with its variables.
pub(crate) fn loop_kind(
    over: Over,
    names: Listed<Text>,
    variable: &Option<Text>,
    status: &Option<Text>,
) -> Result<LoopKind, AllocError>
    ensures { IfOk result (λ kind. kind ≡ loop_kind over names variable.now status.now) }
{
    Ok(LoopKind {
        over,
        names,
        variable: name_if_given(variable)?,
        status: name_if_given(status)?,
    })
}

/// The code of a loop, behind its values. The body's own code has one loop more below it.
pub(crate) fn each(
    alloc: Global,
    ground: &Shape,
    place: &Place,
    kind: LoopKind,
    body: Code,
) -> Result<Code, AllocError>
    ensures { IfOk result (λ code. code ≡ each_by ground.now place.now kind body) }
{
    let before = ground.up(kind.names.len())?;
    looped(alloc, &before, ground, place, kind, body)
}
