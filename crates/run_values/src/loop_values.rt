ghost use Rattle.std.specs.Prelude.{◌≡◌, length, map, option_map, IfOk};
ghost use Rattle.page_meaning.specs.Attributes.{table_of, text_at, value_at};
ghost use Rattle.page_meaning.specs.Rounds.{number_in};
ghost use Rattle.pg_value.specs.Value.{datum_of, entry_of};

use crate::texts::text_of;
use pg_text::Text;
use pg_value::Value;
use std::alloc::{AllocError, Global};

/// The values under their names, the last first: of equal names it is found.
pub fn table_of(
    alloc: Global,
    names: &[Text],
    values: &[Value],
) -> Result<Vec<(Text, Value)>, AllocError>
    requires { length values.now ≡ length names.now }
    ensures { IfOk result (λ table. map entry_of table.items ≡ table_of names.now (map datum_of values.now)) }
{
    let mut table = Vec::with_capacity(alloc, names.len())?;
    for (index, name) in names.iter().enumerate() {
        table.push((name.copy()?, values[index].copy()?))?;
    }
    table.reverse();
    Ok(table)
}

/// The value of a name, where it was given.
pub fn value_at<'a>(table: &'a [(Text, Value)], name: &str) -> Option<&'a Value>
    ensures { option_map (λ value. datum_of value.now) result ≡ value_at name.now (map entry_of table.now) }
{
    for entry in table {
        if entry.0.as_str() == name {
            return Some(&entry.1);
        }
    }
    None
}

/// The number of a name.
pub fn number_at(table: &[(Text, Value)], name: &str) -> Option<i64>
    ensures { result ≡ number_in (value_at name.now (map entry_of table.now)) }
{
    match value_at(table, name) {
        Some(Value::Int(number)) => Some(*number),
        _ => None,
    }
}

/// The text of a name, or the empty text.
pub fn text_at<'a>(table: &'a [(Text, Value)], name: &str) -> &'a str
    ensures { result.now ≡ text_at name.now (map entry_of table.now) }
{
    match value_at(table, name) {
        Some(value) => text_of(value),
        None => "",
    }
}
