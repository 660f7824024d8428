ghost use Rattle.std.specs.Prelude.{◌≡◌, ◌+◌};
ghost use Rattle.page_code.specs.Calls.{body_size};
ghost use Rattle.code_check.specs.ReadChecks.{begins_body, ends_call, fits_address, fits_call};
ghost use Rattle.code_check.specs.ReadChecks.{fits_leave, fits_tag};

use crate::cells::{carries_nothing, carries_same};
use crate::open::{Open, can_take_values, without};
use page_code::{CallBody, CallOut, Cell, Fragment, Leave, TagCall, values_of_address};

/// A call finds the values that it takes, what it hands down begins with nothing open, and it goes
/// on where what is left stands open.
pub(crate) fn call_fits(code: &[Cell], next: usize, open: Open<'_>, call: &CallOut) -> bool
    ensures { result ≡ fits_call code.now next open.entry.values open.entry.bodies open.entry.loops
        open.entry.catches.now call.now }
{
    match call {
        CallOut::Tag(call) => tag_call_fits(code, next, open, call.get()),
        CallOut::Body | CallOut::Fragment(_) => carries_same(code, next, open),
        CallOut::Include { params, .. } => address_call_fits(code, next, open, *params),
        CallOut::Import => address_call_fits(code, next, open, 0),
    }
}

/// An end finds the values that it takes; at the end of a code nothing is open.
pub(crate) fn leave_fits(open: Open<'_>, leave: Leave) -> bool
    ensures { result ≡ fits_leave open.entry.values open.entry.bodies open.entry.loops open.entry.catches.now leave }
{
    match leave {
        Leave::Forward(params) => can_take_values(open, values_of_address(params)),
        Leave::Redirect => can_take_values(open, 1),
        Leave::End => {
            open.values == 0 && open.bodies == 0 && open.loops == 0 && open.catches.is_empty()
        }
    }
}

// The call of a page finds its address, and the next cell carries what is left.
fn address_call_fits(code: &[Cell], next: usize, open: Open<'_>, params: usize) -> bool
    ensures { result ≡ fits_address code.now next params open.entry.values open.entry.bodies open.entry.loops
        open.entry.catches.now }
{
    let count = values_of_address(params);
    can_take_values(open, count) && carries_same(code, next, without(open, count))
}

// The call of a tag file finds its attributes, and its body, its fragments and what follows stand
// behind it.
fn tag_call_fits(code: &[Cell], next: usize, open: Open<'_>, call: &TagCall) -> bool
    ensures { result ≡ fits_tag code.now next open.entry.values open.entry.bodies open.entry.loops
        open.entry.catches.now call.now }
{
    let count = call.names.len() as u128;
    can_take_values(open, count)
        && body_begins(code, next, &call.body)
        && ends_behind(
            code,
            next,
            &call.body,
            call.fragments.as_slice(),
            without(open, count),
        )
}

// A body that is code begins with nothing open.
fn body_begins(code: &[Cell], at: usize, body: &CallBody) -> bool
    ensures { result ≡ begins_body code.now at body.now }
{
    match body {
        CallBody::Absent | CallBody::Source(_) => true,
        CallBody::Cells(_) => carries_nothing(code, at),
    }
}

// Behind a body stand fragments, and the place behind them carries what stands open.
#[tactic(auto, using(crate::proofs::Behind::ends_outside))]
fn ends_behind(
    code: &[Cell],
    at: usize,
    body: &CallBody,
    fragments: &[Fragment],
    open: Open<'_>,
) -> bool
    ensures { result ≡ ends_call code.now (at + body_size body.now) fragments.now open.entry.values
        open.entry.bodies open.entry.loops open.entry.catches.now }
{
    match body {
        CallBody::Absent | CallBody::Source(_) => call_ends(code, at, fragments, open),
        CallBody::Cells(size) => match at.checked_add(*size) {
            Some(behind) => call_ends(code, behind, fragments, open),
            None => false,
        },
    }
}

// Fragments that stand one after the other each begin with nothing open, and the place behind them
// carries what stands open.
fn call_ends(code: &[Cell], first: usize, fragments: &[Fragment], open: Open<'_>) -> bool
    ensures { result ≡ ends_call code.now first fragments.now open.entry.values open.entry.bodies
        open.entry.loops open.entry.catches.now }
{
    let mut at = first;
    for fragment in fragments {
        if !carries_nothing(code, at) {
            return false;
        }
        match at.checked_add(fragment.size) {
            Some(behind) => at = behind,
            None => return false,
        }
    }
    carries_same(code, at, open)
}
