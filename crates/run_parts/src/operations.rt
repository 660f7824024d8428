// What the operations do that take values from the stack and leave one or none.
ghost use Rattle.std.specs.Prelude.{◌≡◌, ◌<◌, ◌^◌, length, map};
ghost use Rattle.std.specs.declared.option.Option.TheVariants.{Some};
ghost use Rattle.el_ops.specs.Operators.{binary_of};
ghost use Rattle.page_code.specs.Ops.{takes};
ghost use Rattle.page_meaning.specs.Core.{set_or_remove};
ghost use Rattle.page_table.specs.Operations.{operation, visits};
ghost use Rattle.page_table.specs.Program.{Serving};
ghost use Rattle.pg_text.specs.Failure.{AnswersAs};
ghost use Rattle.pg_value.specs.Value.{datum_of};
ghost use Rattle.run_parts.specs.Answers.{left_by, none_of, one_of};
ghost use Rattle.run_parts.specs.Operations.{HasOnePlace, IsComputed, computed};
ghost use Rattle.run_parts.specs.Records.{IsRecordsOf};
ghost use Rattle.run_world.specs.Known.{ServesSo};
ghost use Rattle.run_world.specs.Part.{Doing};
ghost use Rattle.run_world.specs.Seats.{params_at, seat_of};

use crate::applied::Applied;
use crate::objects::{implicit_value, scope_entry};
use crate::output::put_escaped;
use crate::request_objects::header_entry;
use crate::request_records::RequestRecords;
use crate::set_properties::{PropertyChange, get_property, set_property};
use crate::variables::{assign, find, unassign, unassign_all};
use el_ops::{binary, index, unary};
use jstl_functions::call;
use page_code::{Op, ScopedName};
use pg_text::Failure;
use pg_value::{BinOp, RunFault, Value};
use run_values::{coerced, joined, list_of, record_of, text_of, url};
use run_world::{Seat, Served, World};
use std::alloc::Global;

/// How many values an operation takes.
pub fn values_taken(op: &Op) -> usize
    requires { takes op.now < 2 ^ 64 }
    ensures { result ≡ takes op.now }
{
    op.takes() as usize
}

// What an operation comes to that leaves no value.
fn none(done: Result<(), Failure<RunFault>>) -> Result<Option<Value>, Failure<RunFault>>
    ensures { result ≡ none_of done }
{
    match done {
        Ok(()) => Ok(None),
        Err(failure) => Err(failure),
    }
}

// What an operation comes to that leaves the value that it made.
fn one(made: Result<Value, Failure<RunFault>>) -> Result<Option<Value>, Failure<RunFault>>
    ensures { result ≡ one_of made }
{
    match made {
        Ok(value) => Ok(Some(value)),
        Err(failure) => Err(failure),
    }
}

// What an operator answers of two values, which stay as they are.
fn operated(alloc: Global, op: BinOp, a: &Value, b: &Value) -> Result<Value, Failure<RunFault>>
    ensures { AnswersAs datum_of (binary_of op (datum_of a.now) (datum_of b.now)) result }
{
    binary(alloc, op, a.copy()?, b)
}

// The value that an operation makes of values alone.
fn compute(alloc: Global, op: &Op, args: &[Value]) -> Result<Value, Failure<RunFault>>
    requires args { length args.now ≡ takes op.now }
    requires computed { IsComputed op.now }
    ensures { AnswersAs datum_of (computed op.now (map datum_of args.now)) result }
{
    match op {
        Op::Const(value) => Ok(value.copy()?),
        Op::Index => index(alloc, &args[0], &args[1]),
        Op::Unary(op) => Ok(unary(*op, &args[0])?),
        Op::Binary(op) => operated(alloc, *op, &args[0], &args[1]),
        Op::Coerce(coercion) => coerced(alloc, *coercion, &args[0]),
        Op::MakeList(_) => list_of(alloc, args),
        Op::MakeMap(_) => record_of(alloc, args),
        Op::Concat(_) => Ok(Value::Text(joined(alloc, args)?)),
        Op::Call(function) => call(alloc, *function, args),
        Op::Url(_) => Ok(Value::Text(url(alloc, &args[0], &args[1..])?)),
        _ => unreachable!(),
    }
}

// Sets a variable; null removes it.
fn set_or_remove<W: World>(
    variable: &ScopedName,
    value: &Value,
    world: &mut W,
) -> Result<(), Failure<RunFault>>
    requires covered { W.covered world.old }
    ensures covered { W.covered world.new }
    ensures does { Doing W.reached W.replies (λ u. u)
        (λ place. set_or_remove place (record { name = variable.now.name; scope = Some variable.now.scope })
        (datum_of value.now)) world.old world.new result }
{
    match value {
        Value::Null => unassign(variable.scope, &variable.name, world),
        value => assign(variable.scope, &variable.name, value.copy()?, world),
    }
}

/// Counts so many visits, one after the other: X18.
#[inline(always)]
pub fn count_visits<W: World>(count: u32, world: &mut W) -> Result<(), Failure<RunFault>>
    requires covered { W.covered world.old }
    ensures covered { W.covered world.new }
    ensures does { Doing W.reached W.replies (λ u. u) (λ place. visits place count) world.old world.new result }
{
    for _counted in 0..count {
        if !world.visit() {
            return Err(Failure::Fault(RunFault::TooMuchWork));
        }
    }
    Ok(())
}

/// What an operation does with the values that it takes: the value that it leaves, if any.
pub fn operate<W: World>(
    alloc: Global,
    served: &Served,
    seat: &Seat,
    records: &mut RequestRecords,
    applied: Applied,
    world: &mut W,
) -> Result<Option<Value>, Failure<RunFault>>
    requires covered { W.covered world.old }
    requires records { IsRecordsOf served.now.request.now (params_at seat.now) records.old }
    requires args { length applied.args.now ≡ takes applied.op.now }
    requires placed { HasOnePlace applied.op.now }
    ensures covered { W.covered world.new }
    ensures records { IsRecordsOf served.now.request.now (params_at seat.now) records.new }
    ensures does { (serving : Serving) → ServesSo W.stores served.now world.old serving →
        Doing W.reached W.replies left_by (λ place. operation serving (seat_of seat.now) place
        applied.entry.op.now (map datum_of applied.entry.args.now)) world.old world.new result }
{
    let Applied { op, args } = applied;
    match op {
        Op::Write(text) => none(world.put(text.as_str())),
        Op::Put => none(world.put(text_of(&args[0]))),
        Op::PutEscaped => none(put_escaped(alloc, text_of(&args[0]), world)),
        Op::Visit(count) => none(count_visits(*count, world)),
        Op::Pop => Ok(None),
        Op::SetVar(variable) => none(set_or_remove(variable, &args[0], world)),
        Op::RemoveVar(variable) => none(unassign(variable.scope, &variable.name, world)),
        Op::RemoveAll(name) => none(unassign_all(name, world)),
        Op::SetProperty(name, mode) => {
            let change = PropertyChange { name, mode, args };
            none(set_property(alloc, seat, &mut records.params, &change, world))
        }
        Op::GetProperty(name) => one(get_property(name, text_of(&args[0]), world)),
        Op::Find(name) => one(find(seat.is_strict(), name, world)),
        Op::Implicit(object) => one(implicit_value(alloc, served, seat, records, *object, world)),
        Op::HeaderIndex(object) => {
            let kept = &mut records.fields;
            one(header_entry(alloc, served.request, *object, kept, &args[0]))
        }
        Op::ScopeIndex(scope) => one(scope_entry(alloc, *scope, &args[0], world)),
        op => one(compute(alloc, op, args)),
    }
}
