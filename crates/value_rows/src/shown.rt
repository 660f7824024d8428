// Values as they are told.
use el_coercion::to_text;
use pg_value::{Failure, RunFault, Value};
use std::alloc::{AllocError, Global};

/// The kind and the text of a value, or its fault.
pub fn value_told(
    alloc: Global,
    found: Result<Value, Failure<RunFault>>,
) -> Result<String, AllocError> {
    match found {
        Ok(value) => match to_text(alloc, &value) {
            Ok(text) => text_told(alloc, kind(&value), text.as_str()),
            Err(failure) => fault_told(alloc, failure),
        },
        Err(failure) => fault_told(alloc, failure),
    }
}

fn kind(value: &Value) -> &'static str {
    match value {
        Value::Null => "null ",
        Value::Bool(_) => "truth ",
        Value::Int(_) => "number ",
        Value::Text(_) => "text ",
        Value::List(_) => "list ",
        Value::Rec(_) => "record ",
    }
}

/// A kind and a text, or how many bytes that has where it is long.
pub fn text_told(alloc: Global, kind: &str, text: &str) -> Result<String, AllocError> {
    let size = text.len();
    if size > 1_000 {
        return format!(in alloc; "{kind}{size} bytes");
    }
    format!(in alloc; "{kind}[{text}]")
}

/// The name of a fault.
pub fn fault_told(alloc: Global, failure: Failure<RunFault>) -> Result<String, AllocError> {
    match failure {
        Failure::Fault(fault) => String::from_str(alloc, fault.name()),
        Failure::NoMemory => Err(AllocError),
    }
}
