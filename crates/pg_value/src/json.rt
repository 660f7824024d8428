ghost use Rattle.std.specs.Prelude.{◌≡◌, IfOk, IfErr, Some, None};
ghost use Rattle.pg_value.specs.Json.{json_data, json_record, json_value, limited};
ghost use Rattle.pg_value.specs.Json.{whole, whole_items, whole_members};
ghost use Rattle.pg_value.specs.ReadJson.{Converts, ConvertsTo, Refuses};
ghost use Rattle.pg_value.specs.Value.{datum_of};
ghost use Rattle.pg_text.specs.Failure.{AnswersAs};
ghost use Rattle.serde_json.specs.View.{view, items_view, members_view};

use crate::attrs::Attrs;
use crate::limits::{MAX_DEPTH, MAX_WEIGHT};
use crate::measures;
use crate::record::Record;
use crate::value::Value;
use crate::values::Values;
use pg_text::{Failure, Text};
use serde_json::Map;
use std::alloc::{AllocError, Global};

/// Why a JSON text gives no value, or no record. Where several hold, the first is answered.
#[derive(Clone, Copy, Debug, PartialEq, Eq)]
pub enum JsonFault {
    /// The bytes are no JSON text in UTF-8.
    NotJson,
    /// The value is no record, where one is asked for.
    NotRecord,
    /// Some number isn't written as a whole number of 64 bits; `1e2` and `-0` aren't.
    Decimal,
    /// Lists and records stand more than `MAX_DEPTH` deep in one another.
    TooDeep,
    /// The value weighs more than `MAX_WEIGHT`.
    TooLarge,
}

/// The value of a JSON text. Of equal keys of an object the last stands.
pub fn from_json(alloc: Global, bytes: &[u8]) -> Result<Value, Failure<JsonFault>>
    ensures { AnswersAs datum_of (json_value bytes.now) result }
{
    let json = read(alloc, bytes)?;
    limited(alloc, &json)
}

/// The record of a JSON text. Of equal keys of an object the last stands.
pub fn record_from_json(alloc: Global, bytes: &[u8]) -> Result<Value, Failure<JsonFault>>
    ensures { AnswersAs datum_of (json_record bytes.now) result }
{
    let json = read(alloc, bytes)?;
    if json.is_object() {
        limited(alloc, &json)
    } else {
        Err(Failure::Fault(JsonFault::NotRecord))
    }
}

// The value of JSON data whose numbers are whole, where it is within the limits.
fn limited(alloc: Global, json: &serde_json::Value) -> Result<Value, Failure<JsonFault>>
    ensures { AnswersAs datum_of (limited (whole (view json.now))) result }
{
    let value = converted(alloc, json)?;
    if measures::depth(&value) > MAX_DEPTH {
        return Err(Failure::Fault(JsonFault::TooDeep));
    }
    if measures::weight(&value) > MAX_WEIGHT {
        return Err(Failure::Fault(JsonFault::TooLarge));
    }
    Ok(value)
}

// What the bytes are as JSON.
fn read(alloc: Global, bytes: &[u8]) -> Result<serde_json::Value, Failure<JsonFault>>
    ensures ok { IfOk result (λ json. json_data bytes.now ≡ Some (view json)) }
    ensures err { IfErr result (λ fault. Refuses (json_data bytes.now) fault) }
{
    match serde_json::Value::from_slice(alloc, bytes) {
        Ok(json) => Ok(json),
        Err(error) => {
            if error.is_memory() {
                Err(Failure::NoMemory)
            } else {
                Err(Failure::Fault(JsonFault::NotJson))
            }
        }
    }
}

// The value of JSON data whose numbers are whole.
#[cycle(converted)]
fn converted(alloc: Global, json: &serde_json::Value) -> Result<Value, Failure<JsonFault>>
    ensures { Converts (whole (view json.now)) result }
{
    match json {
        serde_json::Value::Null => Ok(Value::Null),
        serde_json::Value::Bool(truth) => Ok(Value::Bool(*truth)),
        serde_json::Value::Number(number) => match number.as_i64() {
            Some(whole) => Ok(Value::Int(whole)),
            None => Err(Failure::Fault(JsonFault::Decimal)),
        },
        serde_json::Value::String(text) => Ok(Value::Text(Text::copy_of(alloc, text)?)),
        serde_json::Value::Array(items) => Ok(Value::List(converted_items(alloc, items)?)),
        serde_json::Value::Object(members) => Ok(Value::Rec(Record::new(converted_members(
            alloc, members,
        )?)?)),
    }
}

#[cycle(converted)]
fn converted_items(
    alloc: Global,
    items: &Vec<serde_json::Value>,
) -> Result<Values, Failure<JsonFault>>
    ensures { ConvertsTo (whole_items (items_view items.now.items)) result }
{
    let mut values = Vec::with_capacity(alloc, items.len())?;
    for item in items {
        values
            .push(converted(alloc, item)?)
            .map_err(AllocError::from)?;
    }
    Ok(Values::new(values)?)
}

#[cycle(converted)]
fn converted_members(
    alloc: Global,
    members: &Map<String, serde_json::Value>,
) -> Result<Attrs, Failure<JsonFault>>
    ensures { ConvertsTo (whole_members (members_view members.now.entries)) result }
{
    let mut entries = Vec::with_capacity(alloc, members.len())?;
    for (key, member) in members.iter() {
        let entry = (Text::copy_of(alloc, key)?, converted(alloc, member)?);
        entries.push(entry).map_err(AllocError::from)?;
    }
    Ok(Attrs::new(entries))
}
