// What is done with values.
use crate::operators::{binary_of, unary_of};
use crate::rounds::rounds_told;
use crate::shown::{fault_told, text_told, value_told};
use el_coercion::{to_bool, to_int, to_text};
use el_ops::{binary, index, unary};
use jstl_functions::call;
use pg_value::{
    Failure, Function, JsonFault, Value, depth, from_json, is_too_large, record_from_json, weight,
};
use std::alloc::{AllocError, Global};

/// Why the first of these texts has no value, where it has none.
pub fn json_told(alloc: Global, written: &[String]) -> Result<String, AllocError> {
    let read = from_json(alloc, first_text(written).as_bytes());
    reading_told(alloc, read)
}

/// Why the first of these texts has no record, where it has none.
pub fn record_told(alloc: Global, written: &[String]) -> Result<String, AllocError> {
    let read = record_from_json(alloc, first_text(written).as_bytes());
    reading_told(alloc, read)
}

// The first of these texts, or else an empty one.
fn first_text(written: &[String]) -> &str {
    match written.first() {
        Some(text) => text.as_str(),
        None => "",
    }
}

// Whether a text had a value, or why not.
fn reading_told(
    alloc: Global,
    read: Result<Value, Failure<JsonFault>>,
) -> Result<String, AllocError> {
    let told = match read {
        Ok(_) => "a value",
        Err(Failure::Fault(JsonFault::NotJson)) => "NotJson",
        Err(Failure::Fault(JsonFault::NotRecord)) => "NotRecord",
        Err(Failure::Fault(JsonFault::Decimal)) => "Decimal",
        Err(Failure::Fault(JsonFault::TooDeep)) => "TooDeep",
        Err(Failure::Fault(JsonFault::TooLarge)) => "TooLarge",
        Err(Failure::NoMemory) => return Err(AllocError),
    };
    String::from_str(alloc, told)
}

/// The values of these texts, or the fault of the first that has none.
pub fn values_of(alloc: Global, written: &[String]) -> Result<Vec<Value>, Failure<JsonFault>> {
    let mut values = Vec::new(alloc);
    for text in written {
        add_value(alloc, &mut values, text.as_str())?;
    }
    Ok(values)
}

fn add_value(alloc: Global, values: &mut Vec<Value>, text: &str) -> Result<(), Failure<JsonFault>> {
    let value = from_json(alloc, text.as_bytes())?;
    values.push(value)?;
    Ok(())
}

/// What comes of these values.
pub fn values_told(
    alloc: Global,
    act: &str,
    word: &str,
    values: &[Value],
) -> Result<String, AllocError> {
    match values {
        [value] => one_told(alloc, act, word, value),
        [left, right] => two_told(alloc, act, word, left, right),
        _ => String::from_str(alloc, "nothing is done with so many values"),
    }
}

// What comes of one value.
fn one_told(alloc: Global, act: &str, word: &str, value: &Value) -> Result<String, AllocError> {
    match act {
        "text" => to_text_told(alloc, value),
        "number" => number_told(alloc, value),
        "truth" => truth_told(alloc, value),
        "measure" => measured_told(alloc, value),
        "unary" => value_told(alloc, unary(unary_of(word), value).map_err(Failure::Fault)),
        "rounds" => rounds_told(alloc, word, value),
        _ => call_told(alloc, word, value),
    }
}

fn to_text_told(alloc: Global, value: &Value) -> Result<String, AllocError> {
    match to_text(alloc, value) {
        Ok(text) => text_told(alloc, "", text.as_str()),
        Err(failure) => fault_told(alloc, failure),
    }
}

fn number_told(alloc: Global, value: &Value) -> Result<String, AllocError> {
    match to_int(value) {
        Ok(number) => format!(in alloc; "{number}"),
        Err(fault) => String::from_str(alloc, fault.name()),
    }
}

fn truth_told(alloc: Global, value: &Value) -> Result<String, AllocError> {
    match to_bool(value) {
        Ok(truth) => format!(in alloc; "{truth}"),
        Err(fault) => String::from_str(alloc, fault.name()),
    }
}

// What a value weighs, how deep it is, and whether one of these is over its limit.
fn measured_told(alloc: Global, value: &Value) -> Result<String, AllocError> {
    let (heavy, deep, large) = (weight(value), depth(value), is_too_large(value));
    format!(in alloc; "{heavy} {deep} {large}")
}

// What comes of two values.
fn two_told(
    alloc: Global,
    act: &str,
    word: &str,
    left: &Value,
    right: &Value,
) -> Result<String, AllocError> {
    if act == "index" {
        return value_told(alloc, index(alloc, left, right));
    }
    value_told(alloc, binary(alloc, binary_of(word), left.copy()?, right))
}

// What a function answers for a list of as many arguments as it has.
fn call_told(alloc: Global, word: &str, args: &Value) -> Result<String, AllocError> {
    let Some(function) = Function::of_name(word) else {
        return String::from_str(alloc, "no function");
    };
    if let Value::List(args) = args {
        let args = args.as_slice();
        if args.len() == function.arity() {
            return value_told(alloc, call(alloc, function, args));
        }
    }
    String::from_str(alloc, "not so many arguments")
}
