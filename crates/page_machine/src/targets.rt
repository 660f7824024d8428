// What an include or an import names.
ghost use Rattle.std.specs.Prelude.{◌≡◌, ◌≤◌, IfOk, codes, is_some, length, map};
ghost use Rattle.http_in.specs.Target.{query_of};
ghost use Rattle.jstl_functions.specs.Texts.{contains_part};
ghost use Rattle.page_machine.specs.Pages.{ImportSo, TargetSo, params_for};
ghost use Rattle.page_meaning.specs.Context.{Run};
ghost use Rattle.page_meaning.specs.Includes.{target_params};
ghost use Rattle.page_table.specs.Operations.{params_in, text_at};
ghost use Rattle.page_table.specs.Seat.{page_run_of};
ghost use Rattle.pg_value.specs.Value.{datum_of};
ghost use Rattle.run_world.specs.Seats.{seat_of};

use http_in::Param;
use pg_text::{Failure, Listed, Path};
use pg_value::{RunFault, Value};
use run_moves::named_path;
use run_parts::own_params;
use run_values::text_of;
use run_world::Seat;
use std::alloc::{AllocError, Global};

/// The parameters with which the page of a target runs: those of the page that names it, alone or
/// behind others.
#[derive(Drop)]
pub(crate) enum TargetParams {
    Same,
    Own(Listed<Param>),
}

/// What an include or an import names: its path and its parameters. X11 where it names no path.
#[derive(Drop)]
pub(crate) struct Target {
    pub path: Path,
    pub params: TargetParams,
}

// Whether an address has a query.
fn has_query(address: &str) -> bool
    ensures { result ≡ is_some (query_of address.now) }
{
    address.split_once('?').is_some()
}

// The parameters of a target: those of the page that names it, where it has no query and is given
// none.
fn find_params(alloc: Global, address: &str, given: &[Value]) -> Result<TargetParams, AllocError>
    ensures { (run : Run) → IfOk result (λ params. params_for run params ≡ target_params run address.now
        (params_in (map datum_of given.now))) }
{
    if given.is_empty() && !has_query(address) {
        return Ok(TargetParams::Same);
    }
    let own = own_params(alloc, address, given)?;
    Ok(TargetParams::Own(own))
}

/// What the values of an include or an import name: the first is its address, the others are its
/// parameters, each a name and a value.
pub(crate) fn find_target(
    alloc: Global,
    seat: &Seat,
    values: &[Value],
) -> Result<Target, Failure<RunFault>>
    requires { 1 ≤ length values.now }
    ensures { TargetSo (page_run_of (seat_of seat.now)) (map datum_of values.now) result }
{
    let address = text_of(&values[0]);
    let path = named_path(alloc, seat, address)?;
    let params = find_params(alloc, address, &values[1..])?;
    Ok(Target { path, params })
}

/// What an import names: X15 where it has `://`.
pub(crate) fn import_target(
    alloc: Global,
    seat: &Seat,
    values: &[Value],
) -> Result<Target, Failure<RunFault>>
    requires { 1 ≤ length values.now }
    ensures { ImportSo (contains_part (codes "://") (text_at 0 (map datum_of values.now)))
        (page_run_of (seat_of seat.now)) (map datum_of values.now) result }
{
    if text_of(&values[0]).find("://").is_some() {
        return Err(Failure::Fault(RunFault::BadUrl));
    }
    find_target(alloc, seat, values)
}
