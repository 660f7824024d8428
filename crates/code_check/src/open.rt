ghost use Rattle.std.specs.Prelude.{◌≡◌, ◌≤◌, ◌-◌};
ghost use Rattle.code_check.specs.ReadChecks.{roomy, can_take};

use page_code::{Level, Shape};

/// How much stands open somewhere. It is compared with the shapes of cells, and takes no memory.
#[derive(Clone, Copy)]
pub(crate) struct Open<'c> {
    pub values: usize,
    pub bodies: usize,
    pub loops: usize,
    /// The open catches, the innermost first.
    pub catches: &'c [Level],
}

/// What stands open by a shape.
pub(crate) fn opened(shape: &Shape) -> Open<'_>
    ensures values { result.values ≡ shape.now.values }
    ensures bodies { result.bodies ≡ shape.now.bodies }
    ensures loops { result.loops ≡ shape.now.loops }
    ensures catches { result.catches.now ≡ shape.now.catches }
{
    Open {
        values: shape.values,
        bodies: shape.bodies,
        loops: shape.loops,
        catches: shape.catches.as_slice(),
    }
}

/// Nothing stands open below where the innermost catch began.
pub(crate) fn is_roomy(open: Open<'_>) -> bool
    ensures { result ≡ roomy open.entry.values open.entry.bodies open.entry.loops open.entry.catches.now }
{
    match open.catches {
        [] => true,
        [innermost, ..] => {
            innermost.values <= open.values
                && innermost.bodies <= open.bodies
                && innermost.loops <= open.loops
        }
    }
}

/// So many values stand above where the innermost catch began.
pub(crate) fn can_take_values(open: Open<'_>, count: u128) -> bool
    ensures { result ≡ can_take count open.entry.values open.entry.bodies open.entry.loops open.entry.catches.now }
{
    count <= open.values as u128 && is_roomy(without(open, count))
}

/// What is left without so many values.
pub(crate) fn without(open: Open<'_>, count: u128) -> Open<'_>
    requires { count ≤ open.values }
    ensures values { result.values ≡ open.entry.values - count }
    ensures bodies { result.bodies ≡ open.entry.bodies }
    ensures loops { result.loops ≡ open.entry.loops }
    ensures catches { result.catches.now ≡ open.entry.catches.now }
{
    Open {
        values: open.values - count as usize,
        ..open
    }
}
