ghost use Rattle.page_meaning.specs.Bodies.{put_text};
ghost use Rattle.pg_text.specs.Escape.{escaped};
ghost use Rattle.run_world.specs.Part.{Doing};

use pg_text::{Failure, escape_xml, is_plain_xml};
use pg_value::RunFault;
use run_world::World;
use std::alloc::Global;

/// Writes a text with `<`, `>`, `&` and the two quotes escaped: itself where none of them stands in
/// it.
pub fn put_escaped<W: World>(
    alloc: Global,
    text: &str,
    world: &mut W,
) -> Result<(), Failure<RunFault>>
    requires covered { W.covered world.old }
    ensures covered { W.covered world.new }
    ensures does { Doing W.reached W.replies (λ u. u) (λ place. put_text place (escaped text.now))
        world.old world.new result }
{
    if is_plain_xml(text) {
        return world.put(text);
    }
    let escaped = escape_xml(alloc, text)?;
    world.put(&escaped)
}
