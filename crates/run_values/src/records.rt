ghost use Rattle.std.specs.Prelude.{◌≡◌, IfOk, OnOk};
ghost use Rattle.page_meaning.specs.Request.{text_or_null};
ghost use Rattle.pg_value.specs.Attrs.{with_entry};
ghost use Rattle.pg_value.specs.Datum.{entries_of, rec, text};
ghost use Rattle.pg_value.specs.Value.{datum_of};

use pg_text::Text;
use pg_value::{Attrs, Record, Value};
use std::alloc::{AllocError, Global};

/// The record of these entries, which isn't measured.
pub fn record(entries: Attrs) -> Result<Value, AllocError>
    ensures { IfOk result (λ made. datum_of made ≡ rec (entries_of entries)) }
{
    Ok(Value::Rec(Record::new(entries)?))
}

/// Puts a value under a name, in the place of what stood there.
pub fn put(alloc: Global, entries: &mut Attrs, name: &str, value: Value) -> Result<(), AllocError>
    ensures { OnOk result (entries.new ≡ with_entry entries.old name.now (datum_of value)) }
{
    entries.insert(Text::copy_of(alloc, name)?, value)
}

/// A text as a value.
pub fn text_value(value: &Text) -> Result<Value, AllocError>
    ensures { IfOk result (λ made. datum_of made ≡ text value.now) }
{
    Ok(Value::Text(value.copy()?))
}

/// A copy of a text as a value.
pub fn copied_value(alloc: Global, value: &str) -> Result<Value, AllocError>
    ensures { IfOk result (λ made. datum_of made ≡ text value.now) }
{
    Ok(Value::Text(Text::copy_of(alloc, value)?))
}

/// A text that may be absent as a value, null where it is.
pub fn text_or_null(value: &Option<Text>) -> Result<Value, AllocError>
    ensures { IfOk result (λ made. datum_of made ≡ text_or_null value.now) }
{
    match value {
        Some(value) => text_value(value),
        None => Ok(Value::Null),
    }
}
