// The rounds of a loop.
use crate::shown::fault_told;
use el_coercion::to_text;
use page_code::Over;
use pg_value::{Failure, Record, RunFault, Value};
use run_values::{Mark, Rounds, rounds_of};
use std::alloc::{AllocError, Global};

/// The first four rounds of a loop over a record of what it is given: each its place, its count and
/// its item, with a bang behind the last of all; or the fault.
pub fn rounds_told(alloc: Global, word: &str, given: &Value) -> Result<String, AllocError> {
    let over = match word {
        "numbers" => Over::Numbers,
        "items" => Over::Items,
        _ => Over::Tokens,
    };
    match given {
        Value::Rec(given) => record_told(alloc, over, given),
        _ => Ok(String::new(alloc)),
    }
}

fn record_told(alloc: Global, over: Over, given: &Record) -> Result<String, AllocError> {
    match record_rounds(alloc, over, given) {
        Ok(told) => Ok(told),
        Err(failure) => fault_told(alloc, failure),
    }
}

fn record_rounds(alloc: Global, over: Over, given: &Record) -> Result<String, Failure<RunFault>> {
    let mut rounds = rounds(alloc, over, given)?;
    first_rounds(alloc, &mut rounds)
}

fn rounds(alloc: Global, over: Over, given: &Record) -> Result<Rounds, Failure<RunFault>> {
    let given = given.copy()?.into_attrs()?;
    rounds_of(alloc, over, given.as_slice())
}

// The first four of these.
fn first_rounds(alloc: Global, rounds: &mut Rounds) -> Result<String, Failure<RunFault>> {
    let mut told = String::new(alloc);
    for _ in 0..4 {
        add_next(alloc, &mut told, rounds)?;
    }
    Ok(told)
}

// Adds the next round, where there is one, and goes behind it.
fn add_next(
    alloc: Global,
    told: &mut String,
    rounds: &mut Rounds,
) -> Result<(), Failure<RunFault>> {
    if let Some(mark) = rounds.next() {
        let item = rounds.item(alloc)?;
        add_round(alloc, told, mark, &item)?;
    }
    rounds.advance();
    Ok(())
}

fn add_round(
    alloc: Global,
    told: &mut String,
    mark: Mark,
    item: &Value,
) -> Result<(), Failure<RunFault>> {
    let item = to_text(alloc, item)?;
    let end = if mark.is_last { '!' } else { ';' };
    write!(told, "{}/{}={}{end}", mark.index, mark.count, item.as_str())?;
    Ok(())
}
