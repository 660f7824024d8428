ghost use Rattle.std.specs.Prelude.{◌≡◌, ◌≢◌, map, option_map, IfOk};
ghost use Rattle.run_values.specs.Properties.{changed_all, changed_one, found_of, property_found};
ghost use Rattle.page_meaning.specs.Attributes.{coerced};
ghost use Rattle.page_meaning.specs.Beans.{all_by_parameters, by_parameter, filled, like};
ghost use Rattle.page_meaning.specs.Beans.{property_of, replaced_value};
ghost use Rattle.page_meaning.specs.Core.{property_replaced, with_property};
ghost use Rattle.pg_text.specs.Failure.{Answers, AnswersAs};
ghost use Rattle.jstl_functions.specs.Functions.{measured};
ghost use Rattle.pg_value.specs.Datum.{entries_of, null, rec};
ghost use Rattle.pg_value.specs.Value.{datum_of, entry_of};

use crate::values::{as_number, as_text, as_truth_value, measured};
use pg_text::{Failure, Text};
use pg_value::{Attrs, Record, RunFault, Scope, Value};
use std::alloc::{AllocError, Global};

/// The property of a record: X14 of another value, X5 where it is absent.
#[tactic(auto, using(crate::proofs::PropertyLemmas::properties))]
pub fn property_of(name: &str, value: &Value) -> Result<Value, Failure<RunFault>>
    ensures { AnswersAs datum_of (property_of name.now (datum_of value.now)) result }
{
    let Value::Rec(record) = value else {
        return Err(Failure::Fault(RunFault::NotARecord));
    };
    match record.get(name) {
        Some(property) => Ok(property.copy()?),
        None => Err(Failure::Fault(RunFault::NoProperty)),
    }
}

/// A new value coerced to the kind of the old one, where that is a text, a number or a truth value:
/// X1, X2, X4, X20.
pub fn replaced(alloc: Global, old: &Value, new: &Value) -> Result<Value, Failure<RunFault>>
    ensures { AnswersAs datum_of (coerced (like (datum_of old.now)) (datum_of new.now)) result }
{
    match old {
        Value::Text(_) => as_text(alloc, new),
        Value::Int(_) => as_number(new),
        Value::Bool(_) => as_truth_value(new),
        Value::Null | Value::List(_) | Value::Rec(_) => Ok(new.copy()?),
    }
}

// What a parameter makes of the old value of a property: lists and records stay, and so does a
// value whose parameter is empty or absent.
fn by_parameter(
    alloc: Global,
    params: &Record,
    name: &Text,
    old: &Value,
) -> Result<Value, Failure<RunFault>>
    ensures { AnswersAs datum_of (by_parameter params.now (name.now, datum_of old.now)) result }
{
    match old {
        Value::List(_) | Value::Rec(_) => Ok(old.copy()?),
        Value::Null | Value::Bool(_) | Value::Int(_) | Value::Text(_) => {
            replaced_or_old(alloc, old, params.get(name.as_str()))
        }
    }
}

// A parameter coerced to the kind of an old value, or the old value where the parameter is empty or
// absent.
fn replaced_or_old(
    alloc: Global,
    old: &Value,
    new: Option<&Value>,
) -> Result<Value, Failure<RunFault>>
    ensures { AnswersAs datum_of (replaced_value (datum_of old.now)
        (filled (option_map (λ value. datum_of value.now) new.entry))) result }
{
    match filled(new) {
        Some(new) => replaced(alloc, old, new),
        None => Ok(old.copy()?),
    }
}

// A value where it is a text that isn't empty.
fn filled(value: Option<&Value>) -> Option<&Value>
    ensures { option_map (λ value. datum_of value.now) result
        ≡ filled (option_map (λ value. datum_of value.now) value.entry) }
{
    match value {
        Some(Value::Text(text)) if !text.is_empty() => value,
        _ => None,
    }
}

// The entries, with each of these properties as the parameter of its name makes it: X1, X2, X4,
// X20.
fn these_by_parameters(
    alloc: Global,
    params: &Record,
    properties: &[(Text, Value)],
    entries: Attrs,
) -> Result<Attrs, Failure<RunFault>>
    ensures { Answers (all_by_parameters params.now (map entry_of properties.now) entries) result }
{
    let mut onto = entries;
    for (name, old) in properties {
        let value = by_parameter(alloc, params, name, old)?;
        onto.insert(name.copy()?, value)?;
    }
    Ok(onto)
}

// The one copy of a record's entries, with each property as the parameter of its name makes it: X1,
// X2, X4, X20.
fn all_by_parameters(
    alloc: Global,
    params: &Record,
    record: &Record,
) -> Result<Attrs, Failure<RunFault>>
    ensures { Answers (all_by_parameters params.now record.now record.now) result }
{
    let mut onto = record.copy()?.into_attrs()?;
    let mut done = 0;
    while done < record.len() {
        let next = record.entries_from(done);
        onto = these_by_parameters(alloc, params, next, onto)?;
        done += next.len();
    }
    Ok(onto)
}

/// A record with a property replaced, null removing it: X14 of another value, X20.
pub fn property_replaced(
    name: &Text,
    new: &Value,
    record: &Value,
) -> Result<Value, Failure<RunFault>>
    ensures answer { AnswersAs datum_of (property_replaced name.now (datum_of new.now) (datum_of record.now)) result }
    ensures some { IfOk result (λ made. datum_of made ≢ null) }
{
    let Value::Rec(record) = record else {
        return Err(Failure::Fault(RunFault::NotARecord));
    };
    let changed = with_property(name, new, record.copy()?)?;
    measured(Value::Rec(changed))
}

// The record with a property set, or without it where that is null.
fn with_property(name: &Text, new: &Value, entries: Record) -> Result<Record, AllocError>
    ensures { IfOk result (λ made. made ≡ with_property name.now (datum_of new.now) entries) }
{
    let mut changed = entries;
    match new {
        Value::Null => changed.remove(name.as_str())?,
        new => changed.insert(name.copy()?, new.copy()?)?,
    }
    Ok(changed)
}

/// The entries of a record, with all its properties set by the parameters of their names: X14 of
/// another value, X1, X2, X4, X20.
pub fn changed_all(
    alloc: Global,
    params: &Record,
    value: &Value,
) -> Result<Record, Failure<RunFault>>
    ensures { Answers (changed_all params.now (datum_of value.now)) result }
{
    let Value::Rec(record) = value else {
        return Err(Failure::Fault(RunFault::NotARecord));
    };
    let changed = all_by_parameters(alloc, params, record)?;
    Ok(Record::new(changed)?)
}

/// The entries of a record, with a property set by a parameter, or None where that is empty or
/// absent: X14 of another value, X5, X1, X2, X4, X20. They are changed as [`Record::insert`] does.
pub fn changed_one(
    alloc: Global,
    params: &Record,
    property: &Text,
    parameter: &Text,
    value: &Value,
) -> Result<Option<Record>, Failure<RunFault>>
    ensures { Answers (changed_one params.now property.now parameter.now (datum_of value.now)) result }
{
    let Value::Rec(record) = value else {
        return Err(Failure::Fault(RunFault::NotARecord));
    };
    let old = property_of(property.as_str(), value)?;
    let Some(new) = filled(params.get(parameter.as_str())) else {
        return Ok(None);
    };
    let new = replaced(alloc, &old, new)?;
    let mut entries = record.copy()?;
    entries.insert(property.copy()?, new)?;
    Ok(Some(entries))
}

/// The record of a variable, with the old value of a property.
#[derive(Drop)]
pub struct FoundProperty {
    pub scope: Scope,
    pub entries: Record,
    pub old: Value,
}

/// The property of the record that was found in a scope: X14 of another value, X5.
pub fn property_found(
    scope: Scope,
    value: &Value,
    property: &Text,
) -> Result<FoundProperty, Failure<RunFault>>
    ensures { AnswersAs found_of (property_found property.now scope (datum_of value.now)) result }
{
    let Value::Rec(record) = value else {
        return Err(Failure::Fault(RunFault::NotARecord));
    };
    Ok(FoundProperty {
        scope,
        old: property_of(property.as_str(), value)?,
        entries: record.copy()?,
    })
}

/// The record of these entries: X20.
pub fn measured_record(entries: Record) -> Result<Value, Failure<RunFault>>
    ensures answer { AnswersAs datum_of (measured (rec (entries_of entries))) result }
    ensures some { IfOk result (λ made. datum_of made ≢ null) }
{
    measured(Value::Rec(entries))
}
