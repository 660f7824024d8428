// How a code is left.
ghost use Rattle.std.specs.List.{list_any};
ghost use Rattle.std.specs.Prelude.{◌≡◌, ◌≤◌, ◌+◌, ◌*◌, length, map, false, IfOk};
ghost use Rattle.page_code.specs.Ops.{address_with};
ghost use Rattle.page_code.specs.declared.call.Leave.TheVariants as leave;
ghost use Rattle.page_meaning.specs.Addresses.{is_control};
ghost use Rattle.page_meaning.specs.Includes.{target_path};
ghost use Rattle.page_table.specs.Act.{leaving};
ghost use Rattle.page_table.specs.Finds.{LeaveFinds};
ghost use Rattle.page_table.specs.Operations.{behind_first, params_in, text_at};
ghost use Rattle.page_table.specs.Program.{Serving};
ghost use Rattle.page_table.specs.Seat.{Seat as Seat', page_run_of};
ghost use Rattle.pg_text.specs.Failure.{Answers};
ghost use Rattle.pg_value.specs.Value.{datum_of};
ghost use Rattle.run_moves.specs.Acted.{Acted, ActedFor};
ghost use Rattle.run_moves.specs.At.{seat_at};
ghost use Rattle.run_moves.specs.Leaving.{forward_asked, goal_of, path_named, redirect_asked};
ghost use Rattle.run_moves.specs.Opened.{open_of};
ghost use Rattle.run_world.specs.Known.{ServesSo};
ghost use Rattle.run_world.specs.Part.{Doing};
ghost use Rattle.run_world.specs.Seats.{seat_of};

use crate::at::At;
use crate::flow::{End, Flow};
use crate::landing::fail;
use crate::open::Open;
use http_in::Param;
use page_code::{CellPlace, Leave};
use pg_text::{Failure, Listed, Path, Text};
use pg_value::{RunFault, Value};
use run_parts::{target_params, target_path};
use run_values::text_of;
use run_world::{Seat, World};
use std::alloc::Global;

// Where a page is left for: a path, its parameters, and the levels left below it.
#[derive(Drop)]
pub(crate) struct Forward {
    pub path: Path,
    pub params: Listed<Param>,
    pub left: u32,
}

// Ends the run of a code: at its end, or with the page that it belongs to.
#[inline(never)]
pub(crate) fn leave<W: World>(
    alloc: Global,
    at: &At,
    how: &Leave,
    opened: &mut Open,
    world: &mut W,
) -> Flow
    requires covered { W.covered world.old }
    requires finds { LeaveFinds (open_of opened.old) how.now }
    ensures covered { W.covered world.new }
    ensures acted { ActedFor W.reached W.replies (ServesSo W.stores at.now.served.now) (λ serving s.
        leaving serving (seat_at at.now) at.now.cell.place how.now s (open_of opened.old)) world.old world.new
        (open_of opened.new) result }
    ensures left { opened.new.left ≡ opened.old.left }
{
    match how {
        Leave::End => Flow::Over(End::Normal),
        Leave::Redirect => redirect_away(alloc, &at.cell.place, opened, world),
        Leave::Forward(params) => forward_away(alloc, at, *params, opened, world),
    }
}

// Sends the client to the address on top.
fn redirect_away<W: World>(
    alloc: Global,
    place: &CellPlace,
    opened: &mut Open,
    world: &mut W,
) -> Flow
    requires covered { W.covered world.old }
    requires filled { 1 ≤ length opened.old.stack }
    ensures covered { W.covered world.new }
    ensures acted { (serving : Serving) (seat : Seat') →
        Acted W.reached W.replies (λ s. leaving serving seat place.now leave.Redirect s (open_of opened.old))
        world.old world.new (open_of opened.new) result }
    ensures left { opened.new.left ≡ opened.old.left }
{
    let asked = ask_redirect(alloc, opened.stack.top(1), world);
    opened.stack.drop_top(1);
    match asked {
        Ok(address) => Flow::Over(End::Redirect(address)),
        Err(failed) => fail(alloc, failed, place, opened, world),
    }
}

// Goes over to the page at an address.
fn forward_away<W: World>(
    alloc: Global,
    at: &At,
    params: usize,
    opened: &mut Open,
    world: &mut W,
) -> Flow
    requires covered { W.covered world.old }
    requires filled { address_with params ≤ length opened.old.stack }
    ensures covered { W.covered world.new }
    ensures acted { (serving : Serving) → ServesSo W.stores at.now.served.now world.old serving →
        Acted W.reached W.replies (λ s. leaving serving (seat_at at.now) at.now.cell.place (leave.Forward params) s
        (open_of opened.old)) world.old world.new (open_of opened.new) result }
    ensures left { opened.new.left ≡ opened.old.left }
{
    let held = opened.stack.len();
    let count = 2 * params + 1;
    prove!(count <= held);
    let asked = ask_forward(alloc, at, opened.left, opened.stack.top(count), world);
    opened.stack.drop_top(count);
    match asked {
        Ok(goal) => {
            world.clear();
            let Forward { path, params, left } = goal;
            Flow::Over(End::Forward { path, params, left })
        }
        Err(failed) => fail(alloc, failed, &at.cell.place, opened, world),
    }
}

// The address to which a client is sent: X9 behind a commit, X15 of one with a control byte.
fn ask_redirect<W: World>(
    alloc: Global,
    values: &[Value],
    world: &mut W,
) -> Result<Text, Failure<RunFault>>
    requires covered { W.covered world.old }
    requires some { 1 ≤ length values.now }
    ensures covered { W.covered world.new }
    ensures does { Doing W.reached W.replies (λ t. t)
        (λ place. redirect_asked place (text_at 0 (map datum_of values.now))) world.old world.new result }
{
    if world.has_committed() {
        return Err(Failure::Fault(RunFault::Committed));
    }
    let address = text_of(&values[0]);
    if has_control(address.as_bytes()) {
        return Err(Failure::Fault(RunFault::BadUrl));
    }
    Ok(Text::copy_of(alloc, address)?)
}

// Whether an address has a control byte, which no field of a head may have.
fn has_control(url: &[u8]) -> bool
    ensures { result ≡ list_any is_control url.now }
{
    url.iter().any(|byte| *byte < 0x20 || *byte == 0x7F)
}

/// The path that a target names, by the path of the page that runs: X11 where it names none.
pub fn named_path(alloc: Global, seat: &Seat, target: &str) -> Result<Path, Failure<RunFault>>
    ensures { Answers (path_named (target_path (page_run_of (seat_of seat.now)) target.now)) result }
{
    match target_path(alloc, seat, target) {
        Ok(path) => Ok(path),
        Err(Failure::Fault(_)) => Err(Failure::Fault(RunFault::NoSuchPage)),
        Err(Failure::NoMemory) => Err(Failure::NoMemory),
    }
}

// Where a page is left for: X9 behind a commit, X11 where no path is named, X17, and then what
// stands at the path.
fn ask_forward<W: World>(
    alloc: Global,
    at: &At,
    left: u32,
    values: &[Value],
    world: &mut W,
) -> Result<Forward, Failure<RunFault>>
    requires covered { W.covered world.old }
    requires some { 1 ≤ length values.now }
    ensures covered { W.covered world.new }
    ensures does { (serving : Serving) → ServesSo W.stores at.now.served.now world.old serving →
        Doing W.reached W.replies goal_of (λ place. forward_asked serving left place
        (page_run_of (seat_at at.now)) (text_at 0 (map datum_of values.now))
        (params_in (behind_first (map datum_of values.now)))) world.old world.new result }
    ensures uncommitted { IfOk result (λ goal. W.committed world.new ≡ false) }
{
    if world.has_committed() {
        return Err(Failure::Fault(RunFault::Committed));
    }
    let target = text_of(&values[0]);
    let path = named_path(alloc, at.seat, target)?;
    let Some(left) = left.checked_sub(1) else {
        return Err(Failure::Fault(RunFault::TooDeep));
    };
    let params = target_params(alloc, at.seat, target, &values[1..])?;
    let _ = world.page(&path)?;
    Ok(Forward { path, params, left })
}
