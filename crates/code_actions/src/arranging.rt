// Values that are arranged before they are taken.
ghost use Rattle.std.specs.Prelude.{◌≡◌, ◌++◌, map, IfOk};
ghost use Rattle.code_forms.specs.Codes.{arranged_code};

use code_forms::{arranged, joined};
use page_code::{Code, Shape};
use pg_text::{Listed, Place, Text};
use std::alloc::{AllocError, Global};

/// The code that arranges these of the values with these names, and another behind it.
pub(crate) fn arranged_before(
    alloc: Global,
    ground: &Shape,
    place: &Place,
    wanted: &[&str],
    names: &Listed<Text>,
    behind: Code,
) -> Result<Code, AllocError>
    ensures { IfOk result (λ code. code ≡ arranged_code ground.now place.now
        (map (λ name. name.now) wanted.now) names.now 0 ++ behind) }
{
    joined(arranged(alloc, ground, place, wanted, names)?, behind)
}
