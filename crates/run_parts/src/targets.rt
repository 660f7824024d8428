// What an include or a forward names.
ghost use Rattle.std.specs.Prelude.{◌≡◌, ◌++◌, [], map, unwrap_or, IfOk, OnOk};
ghost use Rattle.http_in.specs.Target.{before_query, query_of};
ghost use Rattle.page_meaning.specs.Context.{Run};
ghost use Rattle.page_meaning.specs.Includes.{target_params, target_path};
ghost use Rattle.page_table.specs.Operations.{params_in};
ghost use Rattle.page_table.specs.Seat.{page_run_of};
ghost use Rattle.pg_text.specs.Failure.{Answers};
ghost use Rattle.pg_value.specs.Value.{datum_of};
ghost use Rattle.run_world.specs.Params.{params_of};
ghost use Rattle.run_world.specs.Seats.{seat_of};

use http_in::{Param, query_params};
use pg_text::{BadPath, Duplicate, Failure, Listed, Path, resolve};
use pg_value::Value;
use run_values::{before_query, params_in};
use run_world::{Params, Seat};
use std::alloc::{AllocError, Global};

// The query of a target, or the empty text.
fn query_of(target: &str) -> &str
    ensures { result.now ≡ unwrap_or (query_of target.now) [] }
{
    match target.split_once('?') {
        Some((_, query)) => query,
        None => "",
    }
}

/// The path that a target names for the page that runs.
pub fn target_path(alloc: Global, seat: &Seat, target: &str) -> Result<Path, Failure<BadPath>>
    ensures { Answers (target_path (page_run_of (seat_of seat.now)) target.now) result }
{
    resolve(alloc, Some(&seat.program().path), before_query(target))
}

/// The parameters that a target adds to those of the page that names it, in front of them: those of
/// its query, and the given ones.
pub fn own_params(alloc: Global, target: &str, given: &[Value]) -> Result<Listed<Param>, AllocError>
    ensures { (run : Run) → IfOk result (λ own. own ++ run.params ≡ target_params run target.now
        (params_in (map datum_of given.now))) }
{
    let mut own = query_params(alloc, query_of(target))?;
    add_list(&mut own, params_in(alloc, given)?.as_slice())?;
    Ok(own)
}

/// The parameters of a target: those of its query, the given ones, and those of the page that runs.
pub fn target_params(
    alloc: Global,
    seat: &Seat,
    target: &str,
    given: &[Value],
) -> Result<Listed<Param>, AllocError>
    ensures { IfOk result (λ params. params ≡ target_params (page_run_of (seat_of seat.now)) target.now
        (params_in (map datum_of given.now))) }
{
    let mut params = own_params(alloc, target, given)?;
    add_params(&mut params, seat.params())?;
    Ok(params)
}

// Copies of the parameters of a page run, in one list.
pub(crate) fn all_params(alloc: Global, params: &Params) -> Result<Listed<Param>, AllocError>
    ensures { IfOk result (λ all. all ≡ params_of params.now) }
{
    let mut all = Listed::empty(alloc);
    add_params(&mut all, params)?;
    Ok(all)
}

// Puts copies of the parameters of a page run behind others.
fn add_params(params: &mut Listed<Param>, more: &Params) -> Result<(), AllocError>
    ensures { OnOk result (params.new ≡ params.old ++ params_of more.now) }
{
    match more {
        Params::Listed(own) => add_list(params, own),
        Params::Before(own, rest) => {
            add_list(params, own)?;
            add_params(params, rest)
        }
    }
}

// Puts copies of params behind others.
fn add_list(params: &mut Listed<Param>, more: &[Param]) -> Result<(), AllocError>
    ensures { OnOk result (params.new ≡ params.old ++ more.now) }
{
    for param in more {
        params.push(param.duplicate()?)?;
    }
    Ok(())
}
