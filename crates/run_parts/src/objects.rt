// The implicit objects.
ghost use Rattle.std.specs.Prelude.{◌≡◌, ◌≤◌, length, IfOk};
ghost use Rattle.el_coercion.specs.Text.{made};
ghost use Rattle.el_ops.specs.Indexing.{or_null};
ghost use Rattle.jstl_functions.specs.Functions.{measured};
ghost use Rattle.page_code.specs.Names.{max_name_bytes};
ghost use Rattle.page_meaning.specs.Implicit.{entry_of_object, implicit_value, scope_entries};
ghost use Rattle.page_meaning.specs.Implicit.{whole_application};
ghost use Rattle.page_meaning.specs.Went.{Well, result_of, then_do};
ghost use Rattle.page_meaning.specs.Work.{ask};
ghost use Rattle.page_table.specs.Operands.{implicit_of, keyed_scope};
ghost use Rattle.page_table.specs.Program.{Serving, served_of};
ghost use Rattle.page_table.specs.Seat.{here_of};
ghost use Rattle.pg_text.specs.Failure.{Answers, AnswersAs};
ghost use Rattle.pg_value.specs.Attrs.{entry_at};
ghost use Rattle.pg_value.specs.Datum.{entries_of, rec};
ghost use Rattle.pg_value.specs.Value.{datum_of};
ghost use Rattle.run_parts.specs.Objects.{whole_answer};
ghost use Rattle.run_parts.specs.Records.{IsRecordsOf};
ghost use Rattle.run_world.specs.Known.{ServesSo};
ghost use Rattle.run_world.specs.Part.{Doing};
ghost use Rattle.run_world.specs.Seats.{params_at, seat_of};
ghost use Rattle.site_words.specs.PageSteps.{told_value};
ghost use Rattle.site_words.specs.declared.words.AppStep.TheVariants as step;

use crate::request_objects::request_value;
use crate::request_records::RequestRecords;
use crate::variables::told_value;
use el_coercion::{made_text, to_text};
use page_code::Implicit;
use pg_text::{Failure, Text};
use pg_value::{RunFault, Scope, Value};
use run_world::{Seat, Served, World};
use scopes::{HeldScope, Scopes};
use site_words::{AppReply, AppStep};
use std::alloc::{AllocError, Global};

// The whole of application scope, as a reply tells it: X20 where it is too large.
fn whole(reply: AppReply) -> Result<Value, Failure<RunFault>>
    ensures { AnswersAs datum_of (whole_answer reply) result }
{
    match reply {
        AppReply::Large { .. } => Err(Failure::Fault(RunFault::ValueTooLarge)),
        reply => Ok(told_value(reply)),
    }
}

// The whole of application scope: X20 where it is too large.
fn whole_application<W: World>(world: &mut W) -> Result<Value, Failure<RunFault>>
    requires covered { W.covered world.old }
    ensures covered { W.covered world.new }
    ensures does { Doing W.reached W.replies datum_of (λ place s. then_do (ask place step.All s)
        (whole_application place)) world.old world.new result }
{
    let reply = world.ask(AppStep::All)?;
    whole(reply)
}

// A scope of the run as a record: X20 where it is too large.
fn scope_value(scope: HeldScope, scopes: &Scopes) -> Result<Value, Failure<RunFault>>
    ensures { AnswersAs datum_of (measured (rec (entries_of (scope_entries scopes.now scope)))) result }
{
    scopes.as_rec(scope)
}

// The value of an implicit object.
pub(crate) fn implicit_value<W: World>(
    alloc: Global,
    served: &Served,
    seat: &Seat,
    records: &mut RequestRecords,
    object: Implicit,
    world: &mut W,
) -> Result<Value, Failure<RunFault>>
    requires covered { W.covered world.old }
    requires records { IsRecordsOf served.now.request.now (params_at seat.now) records.old }
    ensures covered { W.covered world.new }
    ensures records { IsRecordsOf served.now.request.now (params_at seat.now) records.new }
    ensures does { (serving : Serving) → ServesSo W.stores served.now world.old serving →
        Doing W.reached W.replies datum_of (λ place. implicit_value (served_of serving)
        (here_of (seat_of seat.now)) place (implicit_of object)) world.old world.new result }
{
    let Implicit::Scope(scope) = object else {
        let value = request_value(alloc, served, seat.params(), records, world.id(), object)?;
        return Ok(value);
    };
    match HeldScope::of(scope) {
        Some(held) => scope_value(held, world.scopes()),
        None => whole_application(world),
    }
}

// The variable of a scope whose name is the text of a value; null under null, and nothing is asked:
// X20, X22.
pub(crate) fn scope_entry<W: World>(
    alloc: Global,
    scope: Scope,
    key: &Value,
    world: &mut W,
) -> Result<Value, Failure<RunFault>>
    requires covered { W.covered world.old }
    ensures covered { W.covered world.new }
    ensures does { (serving : Serving) → Doing W.reached W.replies datum_of
        (λ place. entry_of_object (served_of serving) place (keyed_scope scope) (datum_of key.now))
        world.old world.new result }
{
    if let Value::Null = key {
        return Ok(Value::Null);
    }
    let name = to_text(alloc, key)?;
    match HeldScope::of(scope) {
        Some(held) => Ok(held_entry(held, name.as_str(), world.scopes())?),
        None => application_entry(name, world),
    }
}

// The variable of a name in a scope of the run, or null.
fn held_entry(scope: HeldScope, name: &str, scopes: &Scopes) -> Result<Value, AllocError>
    ensures { IfOk result (λ value. datum_of value ≡ or_null (entry_at name.now (scope_entries scopes.now scope))) }
{
    match scopes.find_in(scope, name) {
        Some(value) => value.copy(),
        None => Ok(Value::Null),
    }
}

// The variable of a name in application scope, or null: X20 of a name that is too long, X22.
fn application_entry<W: World>(name: Text, world: &mut W) -> Result<Value, Failure<RunFault>>
    requires covered { W.covered world.old }
    ensures covered { W.covered world.new }
    ensures does { Doing W.reached W.replies datum_of (λ place s. then_do (result_of place (made name) s)
        (λ key s1. then_do (ask place (step.Get key) s1) (λ answer s2. Well (told_value answer) s2)))
        world.old world.new result }
{
    let key = made_key(name)?;
    let reply = world.ask(AppStep::Get(key))?;
    Ok(told_value(reply))
}

// A text as a key: X20 where it is too large.
fn made_key(name: Text) -> Result<Text, Failure<RunFault>>
    ensures answer { Answers (made name) result }
    ensures short { IfOk result (λ key. length key ≤ max_name_bytes) }
{
    made_text(name.into_string()?)
}
