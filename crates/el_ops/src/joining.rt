ghost use Rattle.el_coercion.specs.Text.{text_of};
ghost use Rattle.el_ops.specs.Joining.{joining_of};
ghost use Rattle.pg_text.specs.Failure.{Answers};
ghost use Rattle.pg_value.specs.Value.{datum_of};

use el_coercion::{made_text, to_text};
use pg_value::{Failure, RunFault, Text, Value};
use std::alloc::Global;
use std::mem;

/// The texts of both values, one after the other. X20 is a text that weighs more than `MAX_WEIGHT`.
/// A text on the left grows in place where no other value shares it.
pub fn join(alloc: Global, a: Value, b: &Value) -> Result<Text, Failure<RunFault>>
    ensures { Answers (joining_of (datum_of a) (datum_of b.now)) result }
{
    let mut joined = into_text(alloc, a)?.into_string()?;
    joined.push_str(to_text(alloc, b)?.as_str())?;
    made_text(joined)
}

// The text of a value, without a copy of one that is a text.
fn into_text(alloc: Global, mut value: Value) -> Result<Text, Failure<RunFault>>
    ensures { Answers (text_of (datum_of value)) result }
{
    if let Value::Text(text) = &mut value {
        return Ok(mem::replace(text, Text::new(String::new(alloc))?));
    }
    to_text(alloc, &value)
}
