ghost use Rattle.std.specs.Prelude.{◌≡◌, ◌≢◌, None, option_map};
ghost use Rattle.page_meaning.specs.Expressions.{variable_or_step};
ghost use Rattle.page_meaning.specs.Variables.{assign, inner_found, look_up, set_application};
ghost use Rattle.page_meaning.specs.Variables.{unassign, unassign_all};
ghost use Rattle.pg_text.specs.Failure.{AnswersAs};
ghost use Rattle.pg_value.specs.Datum.{null};
ghost use Rattle.pg_value.specs.Value.{datum_of};
ghost use Rattle.run_parts.specs.Answers.{nowhere_answer};
ghost use Rattle.run_world.specs.Part.{Doing};
ghost use Rattle.scopes.specs.Scopes.{found};
ghost use Rattle.site_words.specs.PageSteps.{value_in};

use page_code::Name;
use pg_text::Failure;
use pg_value::{RunFault, Scope, Value, is_too_large};
use run_world::World;
use scopes::{HeldScope, Scopes};
use site_words::{AppReply, AppStep};

// The value that a reply tells, and null of one that tells none.
pub(crate) fn told_value(reply: AppReply) -> Value
    ensures { datum_of result ≡ value_in reply }
{
    match reply {
        AppReply::Value(value) => value,
        _ => Value::Null,
    }
}

// The first of page, request and session scope that has the variable, with its value.
fn inner<'a>(scopes: &'a Scopes, name: &str) -> Option<(Scope, &'a Value)>
    ensures { option_map (λ p. (p.0, datum_of p.1.now)) result ≡ inner_found scopes.now name.now }
{
    if let Some(value) = scopes.find_in(HeldScope::Page, name) {
        return Some((Scope::Page, value));
    }
    if let Some(value) = scopes.find_in(HeldScope::Request, name) {
        return Some((Scope::Request, value));
    }
    let value = scopes.find_in(HeldScope::Session, name)?;
    Some((Scope::Session, value))
}

// The scope and the value of a variable.
pub(crate) fn look_up<W: World>(
    name: &Name,
    world: &mut W,
) -> Result<(Scope, Value), Failure<RunFault>>
    requires covered { W.covered world.old }
    ensures covered { W.covered world.new }
    ensures does { Doing W.reached W.replies (λ p. (p.0, datum_of p.1)) (λ place. look_up place name.now)
        world.old world.new result }
{
    if let Some((scope, value)) = inner(world.scopes(), name.as_text().as_str()) {
        return Ok((scope, value.copy()?));
    }
    let reply = world.ask(AppStep::Get(name.as_text().copy()?))?;
    Ok((Scope::Application, told_value(reply)))
}

/// The value of a variable. Where none is found, X6 if that is a fault (`strict`), else null.
pub fn find<W: World>(strict: bool, name: &Name, world: &mut W) -> Result<Value, Failure<RunFault>>
    requires covered { W.covered world.old }
    ensures covered { W.covered world.new }
    ensures does { Doing W.reached W.replies datum_of (λ place s. variable_or_step strict place name.now
        (found s.scopes name.now) s) world.old world.new result }
{
    if let Some(value) = world.scopes().find(name.as_text().as_str()) {
        return Ok(value.copy()?);
    }
    find_in_application(strict, name, world)
}

// The same of a variable that none of the scopes has which the run holds.
#[inline(never)]
fn find_in_application<W: World>(
    strict: bool,
    name: &Name,
    world: &mut W,
) -> Result<Value, Failure<RunFault>>
    requires covered { W.covered world.old }
    requires nowhere { found (W.variables world.old) name.now ≡ None }
    ensures covered { W.covered world.new }
    ensures does { Doing W.reached W.replies datum_of (λ place s. variable_or_step strict place name.now
        (found s.scopes name.now) s) world.old world.new result }
{
    let reply = world.ask(AppStep::Get(name.as_text().copy()?))?;
    nowhere(strict, told_value(reply))
}

// A value that was found, or null: X6 of null where that is a fault.
fn nowhere(strict: bool, value: Value) -> Result<Value, Failure<RunFault>>
    ensures { AnswersAs datum_of (nowhere_answer strict (datum_of value)) result }
{
    match &value {
        Value::Null if strict => Err(Failure::Fault(RunFault::NotFound)),
        _ => Ok(value),
    }
}

// Sets a variable: X13 and X21, and in application scope X20 and X22.
pub(crate) fn assign<W: World>(
    scope: Scope,
    name: &Name,
    value: Value,
    world: &mut W,
) -> Result<(), Failure<RunFault>>
    requires covered { W.covered world.old }
    requires some { datum_of value ≢ null }
    ensures covered { W.covered world.new }
    ensures does { Doing W.reached W.replies (λ u. u) (λ place. assign place scope name.now (datum_of value))
        world.old world.new result }
{
    match HeldScope::of(scope) {
        Some(held) => world.set(held, name.as_text(), value),
        None => assign_in_application(name, value, world),
    }
}

// The same in application scope, by a step of the site: X20 of the value stands before the X22 of
// the step.
fn assign_in_application<W: World>(
    name: &Name,
    value: Value,
    world: &mut W,
) -> Result<(), Failure<RunFault>>
    requires covered { W.covered world.old }
    requires some { datum_of value ≢ null }
    ensures covered { W.covered world.new }
    ensures does { Doing W.reached W.replies (λ u. u) (λ place. set_application place name.now
        (datum_of value)) world.old world.new result }
{
    if is_too_large(&value) {
        return Err(Failure::Fault(RunFault::ValueTooLarge));
    }
    let _ = world.ask(AppStep::Set(name.as_text().copy()?, value))?;
    Ok(())
}

// Removes a variable.
pub(crate) fn unassign<W: World>(
    scope: Scope,
    name: &Name,
    world: &mut W,
) -> Result<(), Failure<RunFault>>
    requires covered { W.covered world.old }
    ensures covered { W.covered world.new }
    ensures does { Doing W.reached W.replies (λ u. u) (λ place. unassign place scope name.now)
        world.old world.new result }
{
    match HeldScope::of(scope) {
        Some(held) => world.remove(held, name.as_text().as_str()),
        None => {
            let _ = world.ask(AppStep::Remove(name.as_text().copy()?))?;
        }
    }
    Ok(())
}

// Removes the variables of a name from all scopes.
pub(crate) fn unassign_all<W: World>(name: &Name, world: &mut W) -> Result<(), Failure<RunFault>>
    requires covered { W.covered world.old }
    ensures covered { W.covered world.new }
    ensures does { Doing W.reached W.replies (λ u. u) (λ place. unassign_all place name.now)
        world.old world.new result }
{
    world.remove(HeldScope::Page, name.as_text().as_str());
    world.remove(HeldScope::Request, name.as_text().as_str());
    world.remove(HeldScope::Session, name.as_text().as_str());
    unassign(Scope::Application, name, world)
}
