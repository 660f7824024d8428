ghost use Rattle.std.specs.Prelude.{◌≡◌, length, map};
ghost use Rattle.jstl_functions.specs.Functions.{and_then, called, function_value, measured};
ghost use Rattle.pg_text.specs.Failure.{AnswersAs};
ghost use Rattle.pg_value.specs.Datum.{null, text};
ghost use Rattle.pg_value.specs.Function.{arity_of};
ghost use Rattle.pg_value.specs.Value.{datum_of};

use crate::cut::{after_part, before_part, substring, trim};
use crate::join::join;
use crate::length::length;
use crate::letters::{lower_case, upper_case};
use crate::replace::replace;
use crate::search::{contains, contains_ignoring_case, ends_with, index_of_part, starts_with};
use crate::split::split;
use crate::within::measured;
use el_coercion::{made_text, to_int, to_text};
use pg_text::escape_xml;
use pg_value::{Failure, Function, RunFault, Value};
use std::alloc::Global;

/// The answer of a function, of as many arguments as it has. X1 and X4 are arguments that have no
/// number where one is wanted, and X20 is the text of an argument, or an answer, that is over the
/// limits of a value.
pub fn call(alloc: Global, function: Function, args: &[Value]) -> Result<Value, Failure<RunFault>>
    requires { length args.now ≡ arity_of function }
    ensures { AnswersAs datum_of (called function (map datum_of args.now)) result }
{
    match args {
        [a] => of_one(alloc, function, a),
        [a, b] => of_two(alloc, function, a, b),
        [a, b, c] => of_three(alloc, function, a, b, c),
        _ => unreachable!(),
    }
}

// What a function of one argument makes of it.
#[tactic(auto, using(crate::proofs::TooLong::measures))]
fn of_one(alloc: Global, function: Function, a: &Value) -> Result<Value, Failure<RunFault>>
    requires { arity_of function ≡ 1 }
    ensures { AnswersAs datum_of (and_then (function_value function (datum_of a.now) null null) measured) result }
{
    if function == Function::Length {
        return measured(length(alloc, a)?);
    }
    let text = to_text(alloc, a)?;
    let text = text.as_str();
    let made = match function {
        Function::EscapeXml => escape_xml(alloc, text)?,
        Function::ToLowerCase => lower_case(alloc, text)?,
        Function::ToUpperCase => upper_case(alloc, text)?,
        Function::Trim => String::from_str(alloc, trim(text))?,
        _ => unreachable!(),
    };
    Ok(Value::Text(made_text(made)?))
}

// What a function of two arguments makes of them.
#[tactic(auto, using(crate::proofs::TooLong::measures))]
fn of_two(
    alloc: Global,
    function: Function,
    a: &Value,
    b: &Value,
) -> Result<Value, Failure<RunFault>>
    requires { arity_of function ≡ 2 }
    ensures { AnswersAs datum_of (and_then (function_value function (datum_of a.now) (datum_of b.now) null)
        measured) result }
{
    if function == Function::Join {
        return join(alloc, a, b);
    }
    let text = to_text(alloc, a)?;
    let text = text.as_str();
    let part = to_text(alloc, b)?;
    let part = part.as_str();
    match function {
        Function::Contains => Ok(Value::Bool(contains(text, part))),
        Function::ContainsIgnoreCase => {
            Ok(Value::Bool(contains_ignoring_case(alloc, text, part)?))
        }
        Function::EndsWith => Ok(Value::Bool(ends_with(text, part))),
        Function::StartsWith => Ok(Value::Bool(starts_with(text, part))),
        Function::IndexOf => Ok(Value::Int(index_of_part(text, part))),
        Function::Split => measured(split(alloc, text, part)?),
        Function::SubstringAfter => made_copy(alloc, after_part(text, part)),
        Function::SubstringBefore => made_copy(alloc, before_part(text, part)),
        _ => unreachable!(),
    }
}

// What a function of three arguments makes of them.
#[tactic(auto, using(crate::proofs::TooLong::measures))]
fn of_three(
    alloc: Global,
    function: Function,
    a: &Value,
    b: &Value,
    c: &Value,
) -> Result<Value, Failure<RunFault>>
    requires { arity_of function ≡ 3 }
    ensures { AnswersAs datum_of (and_then (function_value function (datum_of a.now) (datum_of b.now)
        (datum_of c.now)) measured) result }
{
    let text = to_text(alloc, a)?;
    match function {
        Function::Replace => {
            let old = to_text(alloc, b)?;
            let new = to_text(alloc, c)?;
            let made = replace(alloc, text.as_str(), old.as_str(), new.as_str())?;
            Ok(Value::Text(made))
        }
        Function::Substring => {
            let begin = to_int(b)?;
            let end = to_int(c)?;
            let made = substring(alloc, text.as_str(), begin, end)?;
            Ok(Value::Text(made_text(made)?))
        }
        _ => unreachable!(),
    }
}

// A part of a text, as a value.
#[tactic(auto, using(crate::proofs::TooLong::measures))]
fn made_copy(alloc: Global, part: &str) -> Result<Value, Failure<RunFault>>
    ensures { AnswersAs datum_of (measured (text part.now)) result }
{
    Ok(Value::Text(made_text(String::from_str(alloc, part)?)?))
}
