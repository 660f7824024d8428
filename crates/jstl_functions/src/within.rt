ghost use Rattle.std.specs.Prelude.{◌≡◌};
ghost use Rattle.jstl_functions.specs.Functions.{measured};
ghost use Rattle.pg_text.specs.Failure.{AnswersAs};
ghost use Rattle.pg_value.specs.Datum as datum;
ghost use Rattle.pg_value.specs.Limits.{is_over};
ghost use Rattle.pg_value.specs.Value.{datum_of};

use pg_value::{Failure, MAX_WEIGHT, RunFault, Value, is_too_large};

// A value that was made, or X20 where it is over the limits of a value.
pub(crate) fn measured(value: Value) -> Result<Value, Failure<RunFault>>
    ensures { AnswersAs datum_of (measured (datum_of value)) result }
{
    if is_too_large(&value) {
        return Err(Failure::Fault(RunFault::ValueTooLarge));
    }
    Ok(value)
}

// Whether a text is over the limits of a value. A text that is being made needs no more then.
pub(crate) fn is_too_long(text: &str) -> bool
    ensures { result ≡ is_over (datum.text text.now) }
{
    text.len() as u64 > MAX_WEIGHT - 16
}
