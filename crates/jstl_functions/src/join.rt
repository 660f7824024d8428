ghost use Rattle.std.specs.Prelude.{◌≡◌, ◌++◌, flat_map, map};
ghost use Rattle.el_coercion.specs.Text.{made};
ghost use Rattle.jstl_functions.specs.Functions.{and_then, join_of, measured, texts_of};
ghost use Rattle.jstl_functions.specs.Texts.{joined};
ghost use Rattle.pg_text.specs.Failure.{Answers, AnswersAs};
ghost use Rattle.pg_value.specs.Value.{datum_of};

use crate::within::{is_too_long, measured};
use el_coercion::{made_text, to_text};
use pg_value::{Failure, RunFault, Text, Value};
use std::alloc::{AllocError, Global};

// The texts of a list's items, with another text between them; of a value that isn't a list, its
// text.
#[tactic(auto, using(crate::proofs::Contents::contents, crate::proofs::TooLong::measures))]
pub(crate) fn join(alloc: Global, a: &Value, b: &Value) -> Result<Value, Failure<RunFault>>
    ensures { AnswersAs datum_of (and_then (join_of (datum_of a.now) (datum_of b.now)) measured) result }
{
    let Value::List(items) = a else {
        let text = to_text(alloc, a)?;
        let _between = to_text(alloc, b)?;
        return measured(Value::Text(text));
    };
    let texts = texts_of(alloc, items.as_slice())?;
    let between = to_text(alloc, b)?;
    Ok(Value::Text(joined(alloc, &texts, between.as_str())?))
}

fn texts_of(alloc: Global, items: &[Value]) -> Result<Vec<Text>, Failure<RunFault>>
    ensures { AnswersAs (λ texts. texts.items) (texts_of (map datum_of items.now)) result }
{
    let mut texts = Vec::with_capacity(alloc, items.len())?;
    for item in items {
        let text = to_text(alloc, item)?;
        texts.push(text).map_err(AllocError::from)?;
    }
    Ok(texts)
}

fn joined(alloc: Global, texts: &[Text], between: &str) -> Result<Text, Failure<RunFault>>
    ensures { Answers (made (joined between.now texts.now)) result }
{
    match texts.split_first() {
        Some((first, others)) => joined_behind(alloc, first.as_str(), between, others),
        None => Ok(Text::new(String::new(alloc))?),
    }
}

// A text, and behind it each of the others, with `between` before it.
fn joined_behind(
    alloc: Global,
    first: &str,
    between: &str,
    others: &[Text],
) -> Result<Text, Failure<RunFault>>
    ensures { Answers (made (first.now ++ flat_map (λ t. between.now ++ t) others.now)) result }
{
    let mut joined = String::from_str(alloc, first)?;
    for text in others {
        if is_too_long(joined.as_str()) {
            return Err(Failure::Fault(RunFault::ValueTooLarge));
        }
        joined.push_str(between)?;
        joined.push_str(text.as_str())?;
    }
    made_text(joined)
}
