ghost use Rattle.std.specs.Prelude.{map};
ghost use Rattle.std.specs.declared.option.Option.TheVariants.{Some};
ghost use Rattle.page_meaning.specs.Rounds.{given_items};
ghost use Rattle.page_table.specs.LoopMoves.{loop_rounds};
ghost use Rattle.pg_text.specs.Failure.{AnswersAs};
ghost use Rattle.pg_value.specs.Value.{datum_of, entry_of};
ghost use Rattle.run_values.specs.Rounds.{items_answer, items_of};

use crate::loop_values::{number_at, text_at, value_at};
use crate::rounds::{Items, Rounds};
use jstl_functions::tokens;
use page_code::Over;
use pg_text::{Failure, Listed, Text};
use pg_value::{RunFault, Value, Values};
use std::alloc::{AllocError, Global};

/// The rounds of a loop by the values of its attributes: X7, X8.
pub fn rounds_of(
    alloc: Global,
    over: Over,
    table: &[(Text, Value)],
) -> Result<Rounds, Failure<RunFault>>
    ensures { AnswersAs (λ rounds. rounds) (loop_rounds over (map entry_of table.now)) result }
{
    let items = items_over(alloc, over, table)?;
    let begin = number_at(table, "begin");
    let end = number_at(table, "end");
    let step = number_at(table, "step");
    Ok(Rounds::new(items, begin, end, step)?)
}

// What the rounds of a loop go over: X7.
fn items_over(
    alloc: Global,
    over: Over,
    table: &[(Text, Value)],
) -> Result<Items, Failure<RunFault>>
    ensures { AnswersAs items_of (items_answer over (map entry_of table.now)) result }
{
    match over {
        Over::Numbers => Ok(Items::Numbers),
        Over::Items => match value_at(table, "items") {
            Some(value) => items_in(alloc, value),
            None => Ok(Items::Numbers),
        },
        Over::Tokens => {
            let found = tokens(alloc, text_at(table, "items"), text_at(table, "delims"))?;
            Ok(Items::Texts(Listed::new(found)))
        }
    }
}

// The items of a value: of a list, of a record its entries, of a text its tokens at commas, of null
// none; else X7.
fn items_in(alloc: Global, value: &Value) -> Result<Items, Failure<RunFault>>
    ensures { AnswersAs items_of (given_items (Some (datum_of value.now))) result }
{
    match value {
        Value::Null => Ok(Items::Values(Values::new(Vec::new(alloc))?)),
        Value::List(items) => Ok(Items::Values(items.copy()?)),
        Value::Rec(record) => Ok(Items::Entries(record.copy()?)),
        Value::Text(text) => {
            let found = tokens(alloc, text.as_str(), ",")?;
            Ok(Items::Texts(Listed::new(found)))
        }
        Value::Bool(_) | Value::Int(_) => Err(Failure::Fault(RunFault::NotIterable)),
    }
}
