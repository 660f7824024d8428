ghost use Rattle.std.specs.Prelude.{◌≡◌, IsTrue, Ok, map};
ghost use Rattle.el_coercion.specs.Text.{made};
ghost use Rattle.jstl_functions.specs.Functions.{measured};
ghost use Rattle.page_meaning.specs.Attributes.{as_number, as_text, as_truth_value, coerced};
ghost use Rattle.page_meaning.specs.Expressions.{record_of};
ghost use Rattle.page_table.specs.Operands.{coercion_of};
ghost use Rattle.page_table.specs.Operations.{joined, pairs_in};
ghost use Rattle.pg_text.specs.Failure.{Answers, AnswersAs};
ghost use Rattle.pg_value.specs.Datum.{list, items_of};
ghost use Rattle.pg_value.specs.Value.{datum_of};

use crate::texts::text_of;
use el_coercion::{made_text, to_bool, to_int, to_text};
use page_code::Coercion;
use pg_text::{Failure, Text};
use pg_value::{Attrs, Record, RunFault, Value, Values, is_too_large};
use std::alloc::Global;

/// A value that was made, or X20 where it is over the limits of a value.
pub fn measured(value: Value) -> Result<Value, Failure<RunFault>>
    ensures { AnswersAs datum_of (measured (datum_of value)) result }
{
    if is_too_large(&value) {
        return Err(Failure::Fault(RunFault::ValueTooLarge));
    }
    Ok(value)
}

/// A value under its coercion: X1, X2, X4, X20.
pub fn coerced(alloc: Global, coercion: Coercion, value: &Value) -> Result<Value, Failure<RunFault>>
    ensures { AnswersAs datum_of (coerced (coercion_of coercion) (datum_of value.now)) result }
{
    match (coercion, value) {
        (Coercion::TextOrNull | Coercion::NumberOrNull | Coercion::TruthOrNull, Value::Null) => {
            Ok(Value::Null)
        }
        (Coercion::Text | Coercion::TextOrNull, value) => as_text(alloc, value),
        (Coercion::Number | Coercion::NumberOrNull, value) => as_number(value),
        (Coercion::Truth | Coercion::TruthOrNull, value) => as_truth_value(value),
    }
}

/// Whether a value is of the kind that its coercion makes, so that it stays as it is.
#[inline(always)]
pub fn is_coerced(coercion: Coercion, value: &Value) -> bool
    ensures { IsTrue result → coerced (coercion_of coercion) (datum_of value.now) ≡ Ok (datum_of value.now) }
{
    match (coercion, value) {
        (Coercion::Text | Coercion::TextOrNull, Value::Text(_)) => true,
        (Coercion::Number | Coercion::NumberOrNull, Value::Int(_)) => true,
        (Coercion::Truth | Coercion::TruthOrNull, Value::Bool(_)) => true,
        _ => false,
    }
}

/// A value as a text, which is empty of null: X20.
pub fn as_text(alloc: Global, value: &Value) -> Result<Value, Failure<RunFault>>
    ensures { AnswersAs datum_of (as_text (datum_of value.now)) result }
{
    Ok(Value::Text(to_text(alloc, value)?))
}

/// A value as a number: X1, X4.
pub fn as_number(value: &Value) -> Result<Value, Failure<RunFault>>
    ensures { AnswersAs datum_of (as_number (datum_of value.now)) result }
{
    Ok(Value::Int(to_int(value)?))
}

/// A value as a truth value: X2.
pub fn as_truth_value(value: &Value) -> Result<Value, Failure<RunFault>>
    ensures { AnswersAs datum_of (as_truth_value (datum_of value.now)) result }
{
    Ok(Value::Bool(to_bool(value)?))
}

/// The list of these values: X20.
pub fn list_of(alloc: Global, items: &[Value]) -> Result<Value, Failure<RunFault>>
    ensures { AnswersAs datum_of (measured (list (items_of (map datum_of items.now)))) result }
{
    let mut copy = Vec::with_capacity(alloc, items.len())?;
    for item in items {
        copy.push(item.copy()?)?;
    }
    measured(Value::List(Values::new(copy)?))
}

/// The record of these pairs, each a key and its value: X20. A key is coerced to text, and of equal
/// keys the last stands.
pub fn record_of(alloc: Global, pairs: &[Value]) -> Result<Value, Failure<RunFault>>
    ensures { AnswersAs datum_of (record_of (pairs_in (map datum_of pairs.now))) result }
{
    let mut entries = Vec::with_capacity(alloc, pairs.len() / 2)?;
    let mut rest = pairs;
    while let [key, value, behind @ ..] = rest {
        entries.push((to_text(alloc, key)?, value.copy()?))?;
        rest = behind;
    }
    measured(Value::Rec(Record::new(Attrs::from_entries(entries)?)?))
}

/// Texts joined, without anything between them: X20.
pub fn joined(alloc: Global, texts: &[Value]) -> Result<Text, Failure<RunFault>>
    ensures { Answers (made (joined (map datum_of texts.now))) result }
{
    let mut joined = String::new(alloc);
    for text in texts {
        joined.push_str(text_of(text))?;
    }
    made_text(joined)
}
