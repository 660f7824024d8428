ghost use Rattle.std.specs.Prelude.{◌≡◌, ◌+◌, [], slice_get, nat_eq};
ghost use Rattle.code_check.specs.ReadChecks.{same_level, same_levels, level, carries, cell_tries};
ghost use Rattle.code_check.specs.ReadChecks.{trying_is, ends_catch};

use crate::open::Open;
use page_code::{Cell, Level};

/// The place is in the code, and as much stands open there.
pub(crate) fn carries_same(code: &[Cell], at: usize, open: Open<'_>) -> bool
    ensures { result ≡ carries code.now at open.entry.values open.entry.bodies open.entry.loops
        open.entry.catches.now }
{
    carries_more(code, at, open, 0, 0, 0)
}

/// The place is in the code, and so many values, bodies and loops more stand open there.
pub(crate) fn carries_more(
    code: &[Cell],
    at: usize,
    open: Open<'_>,
    values: usize,
    bodies: usize,
    loops: usize,
) -> bool
    ensures { result ≡ carries code.now at (open.entry.values + values) (open.entry.bodies + bodies)
        (open.entry.loops + loops) open.entry.catches.now }
{
    let Some(cell) = code.get(at) else {
        return false;
    };
    let there = cell.shape.get();
    is_more(there.values, open.values, values)
        && is_more(there.bodies, open.bodies, bodies)
        && is_more(there.loops, open.loops, loops)
        && are_same(there.catches.as_slice(), open.catches)
}

/// The place behind so many cells is in the code, and so many values more stand open there.
pub(crate) fn carries_ahead(
    code: &[Cell],
    next: usize,
    size: usize,
    open: Open<'_>,
    values: usize,
) -> bool
    ensures { result ≡ carries code.now (next + size) (open.entry.values + values) open.entry.bodies
        open.entry.loops open.entry.catches.now }
{
    let Some(at) = next.checked_add(size) else {
        return false;
    };
    carries_more(code, at, open, values, 0, 0)
}

/// The place is in the code, and nothing stands open there.
pub(crate) fn carries_nothing(code: &[Cell], at: usize) -> bool
    ensures { result ≡ carries code.now at 0 0 0 [] }
{
    let nothing = Open {
        values: 0,
        bodies: 0,
        loops: 0,
        catches: &[],
    };
    carries_same(code, at, nothing)
}

/// The place is in the code, and a catch more is open there, which begins here.
pub(crate) fn carries_catch(code: &[Cell], at: usize, open: Open<'_>) -> bool
    ensures { result ≡ cell_tries (slice_get code.now at) open.entry.values open.entry.bodies open.entry.loops
        open.entry.catches.now }
{
    let Some(cell) = code.get(at) else {
        return false;
    };
    let there = cell.shape.get();
    there.values == open.values
        && there.bodies == open.bodies
        && there.loops == open.loops
        && opens_catch(there.catches.as_slice(), open)
}

/// The innermost catch began where as much stood open as now, and the place is in the code and has
/// the others open.
pub(crate) fn closes_catch(code: &[Cell], at: usize, open: Open<'_>) -> bool
    ensures { result ≡ ends_catch code.now at open.entry.values open.entry.bodies open.entry.loops
        open.entry.catches.now }
{
    match open.catches {
        [] => false,
        [innermost, rest @ ..] => {
            began(innermost, open)
                && carries_same(
                    code,
                    at,
                    Open {
                        catches: rest,
                        ..open
                    },
                )
        }
    }
}

// The first of these catches began here, and the others are open here.
fn opens_catch(own: &[Level], open: Open<'_>) -> bool
    ensures { result ≡ trying_is own.now open.entry.values open.entry.bodies open.entry.loops open.entry.catches.now }
{
    match own {
        [] => false,
        [innermost, rest @ ..] => began(innermost, open) && are_same(rest, open.catches),
    }
}

// A catch began where as much stood open.
fn began(catch: &Level, open: Open<'_>) -> bool
    ensures { result ≡ same_level catch.now (level open.entry.values open.entry.bodies open.entry.loops) }
{
    catch.values == open.values && catch.bodies == open.bodies && catch.loops == open.loops
}

// The catches are the same.
fn are_same(a: &[Level], b: &[Level]) -> bool
    ensures { result ≡ same_levels a.now b.now }
{
    a == b
}

// A number is another with so much more.
fn is_more(number: usize, other: usize, more: usize) -> bool
    ensures { result ≡ nat_eq number (other + more) }
{
    number >= more && number - more == other
}
