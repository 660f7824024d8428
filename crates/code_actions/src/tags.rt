// Calls of tag files.
ghost use Rattle.std.specs.Prelude.{◌≡◌, ◌++◌, ◌∷◌, length, IfOk};
ghost use Rattle.page_code.specs.Shapes.{cell, up};
ghost use Rattle.page_code.specs.declared.call.CallOut.TheVariants as call_is;
ghost use Rattle.page_code.specs.declared.instr.Instr.TheVariants as instr;

use code_forms::{Handed, tag_call};
use page_code::{Code, Shape};
use pg_text::{Listed, Path, Place, Text};
use std::alloc::{AllocError, Global};

/// The code of the call of a tag file, behind the values of its attributes, which have these names.
pub fn call_tag(
    alloc: Global,
    ground: &Shape,
    place: &Place,
    path: &Path,
    names: Listed<Text>,
    down: Handed,
) -> Result<Code, AllocError>
    ensures { IfOk result (λ code. code
        ≡ cell (up (length names) ground.now) place.now
        (instr.CallOut (call_is.Tag (record {
          path = path.now;
          names = names;
          body = down.body;
          fragments =
              down.fragments;
        }))) ∷ down.cells) }
{
    let before = ground.up(names.len())?;
    tag_call(alloc, &before, place, path.copy()?, names, down)
}
