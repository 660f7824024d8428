ghost use Rattle.std.specs.Prelude.{◌≡◌, ◌<◌, ◌+◌, ◌^◌, ◌++◌, ℤ, FitsSigned, length, map};
ghost use Rattle.std.specs.Prelude.{string_bytes, IfOk, OnOk};
ghost use Rattle.std.specs.Int.{w64};
ghost use Rattle.el_coercion.specs.Number.{number_of_text};
ghost use Rattle.el_coercion.specs.Text as spec;
ghost use Rattle.el_coercion.specs.Text.{inner_text, items_text, entries_text, entries_from};
ghost use Rattle.el_coercion.specs.Text.{separator_before, text_of};
ghost use Rattle.pg_value.specs.Datum.{items_of, entries_of, truth};
ghost use Rattle.pg_text.specs.Failure.{Answers};
ghost use Rattle.pg_value.specs.Value.{datum_of, entry_of};

use itoa::Buffer;
use pg_text::push_decimal;
use pg_value::{Failure, MAX_WEIGHT, Record, RunFault, Text, Value};
use std::alloc::{AllocError, Global};

/// The text of a value. X20 is a list or record whose text weighs more than `MAX_WEIGHT`.
#[tactic(auto, using(crate::proofs::Printed::reads_back))]
pub fn to_text(alloc: Global, value: &Value) -> Result<Text, Failure<RunFault>>
    ensures text { Answers (text_of (datum_of value.now)) result }
    ensures reads_back { (n : ℤ) → FitsSigned w64 n → value.now ≡ Value.Int n →
        IfOk result (λ text. number_of_text text ≡ Ok n) }
{
    match value {
        Value::Null => Ok(Text::new(String::new(alloc))?),
        Value::Text(text) => Ok(text.copy()?),
        Value::Bool(holds) => Ok(Text::copy_of(alloc, truth_text(*holds))?),
        Value::Int(number) => Ok(Text::copy_of(alloc, Buffer::new().format(*number))?),
        Value::List(_) | Value::Rec(_) => made_text(inner_text(alloc, value)?),
    }
}

/// A text that was made of others: itself, or X20 where it weighs more than `MAX_WEIGHT`.
pub fn made_text(text: String) -> Result<Text, Failure<RunFault>>
    ensures { Answers (spec.made (string_bytes text)) result }
{
    if text.len() as u64 > MAX_WEIGHT - 16 {
        return Err(Failure::Fault(RunFault::ValueTooLarge));
    }
    Ok(Text::new(text)?)
}

#[tactic(auto, unfolding(crate::specs::Text::true_text, crate::specs::Text::false_text))]
fn truth_text(holds: bool) -> &'static str
    ensures { result.now ≡ inner_text (truth holds) }
{
    if holds { "true" } else { "false" }
}

// The text of a value as it stands in a list or a record, where null is `null`.
fn inner_text(alloc: Global, value: &Value) -> Result<String, AllocError>
    ensures { IfOk result (λ text. string_bytes text ≡ inner_text (datum_of value.now)) }
{
    let mut text = String::new(alloc);
    write_value(value, &mut text)?;
    Ok(text)
}

// Writes a value as it stands in a list or a record.
#[cycle(write)]
#[tactic(auto, using(pg_value::proofs::Sizes::sizes, crate::proofs::Joined::joined), unfolding(crate::specs::Text::null_text, crate::specs::Text::true_text, crate::specs::Text::false_text))]
fn write_value(value: &Value, text: &mut String) -> Result<(), AllocError>
    ensures { OnOk result (string_bytes text.new ≡ string_bytes text.old ++ inner_text (datum_of value.now)) }
{
    match value {
        Value::Null => text.push_str("null"),
        Value::Bool(true) => text.push_str("true"),
        Value::Bool(false) => text.push_str("false"),
        Value::Int(number) => push_decimal(text, *number),
        Value::Text(inner) => text.push_str(inner.as_str()),
        Value::List(items) => {
            text.push('[')?;
            write_items(items.as_slice(), text)?;
            text.push(']')
        }
        Value::Rec(entries) => {
            text.push('{')?;
            write_record(entries, text)?;
            text.push('}')
        }
    }
}

// Writes the items of a list, with a comma and a space between them.
#[cycle(write)]
#[tactic(auto, using(pg_value::proofs::Sizes::sizes, crate::proofs::Joined::joined), unfolding(crate::specs::Text::null_text, crate::specs::Text::true_text, crate::specs::Text::false_text))]
fn write_items(items: &[Value], text: &mut String) -> Result<(), AllocError>
    ensures { OnOk result (string_bytes text.new ≡ string_bytes text.old ++ items_text
        (items_of (map datum_of items.now))) }
{
    for (i, item) in items.iter().enumerate() {
        separate(i, text)?;
        write_value(item, text)?;
    }
    Ok(())
}

// Writes the entries of a record, those at once that stand together.
#[cycle(write)]
#[tactic(auto, using(pg_value::proofs::Sizes::sizes, crate::proofs::Joined::joined), unfolding(crate::specs::Text::null_text, crate::specs::Text::true_text, crate::specs::Text::false_text))]
fn write_record(entries: &Record, text: &mut String) -> Result<(), AllocError>
    ensures { OnOk result (string_bytes text.new ≡ string_bytes text.old ++ entries_text (entries_of entries.now)) }
{
    let mut place = 0;
    while place < entries.len() {
        let next = entries.entries_from(place);
        write_entries(next, place, text)?;
        place += next.len();
    }
    Ok(())
}

// Writes entries that stand from this place on.
#[cycle(write)]
#[tactic(auto, using(pg_value::proofs::Sizes::sizes, crate::proofs::Joined::joined), unfolding(crate::specs::Text::null_text, crate::specs::Text::true_text, crate::specs::Text::false_text))]
fn write_entries(
    entries: &[(Text, Value)],
    place: usize,
    text: &mut String,
) -> Result<(), AllocError>
    requires { place + length entries.now < 2 ^ 64 }
    ensures { OnOk result (string_bytes text.new ≡ string_bytes text.old ++ entries_from place
        (entries_of (map entry_of entries.now))) }
{
    for (i, (key, value)) in entries.iter().enumerate() {
        separate(place + i, text)?;
        text.push_str(key.as_str())?;
        text.push('=')?;
        write_value(value, text)?;
    }
    Ok(())
}

// Writes what stands before the item or entry of this index.
#[tactic(auto, unfolding(crate::specs::Text::separator))]
fn separate(index: usize, text: &mut String) -> Result<(), AllocError>
    ensures { OnOk result (string_bytes text.new ≡ string_bytes text.old ++ separator_before index) }
{
    if index == 0 {
        return Ok(());
    }
    text.push_str(", ")
}
