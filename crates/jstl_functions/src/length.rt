ghost use Rattle.std.specs.Prelude.{◌≡◌, ◌<◌, ◌^◌, pos};
ghost use Rattle.jstl_functions.specs.Functions.{length_of};
ghost use Rattle.pg_text.specs.Failure.{AnswersAs};
ghost use Rattle.pg_value.specs.Datum.{number};
ghost use Rattle.pg_value.specs.Value.{datum_of};

use crate::scalars::scalar_count;
use el_coercion::to_text;
use pg_value::{Failure, RunFault, Value};
use std::alloc::Global;

// The number of characters of a text, of items of a list or of entries of a record, and 0 of null.
#[tactic(auto, using(crate::proofs::Contents::contents))]
pub(crate) fn length(alloc: Global, value: &Value) -> Result<Value, Failure<RunFault>>
    ensures { AnswersAs datum_of (length_of (datum_of value.now)) result }
{
    match value {
        Value::Null => Ok(Value::Int(0)),
        Value::List(items) => Ok(number(items.as_slice().len())),
        Value::Rec(entries) => Ok(number(entries.len())),
        Value::Bool(_) | Value::Int(_) | Value::Text(_) => {
            let text = to_text(alloc, value)?;
            Ok(number(scalar_count(text.as_str())))
        }
    }
}

fn number(count: usize) -> Value
    requires { count < 2 ^ 63 }
    ensures { datum_of result ≡ number (pos count) }
{
    Value::Int(count as i64)
}
