ghost use Rattle.std.specs.Prelude.{◌≡◌};
ghost use Rattle.std.specs.declared.option.Option.TheVariants.{Some};
ghost use Rattle.page_meaning.specs.Attributes.{text_in};
ghost use Rattle.pg_value.specs.Value.{datum_of};

use pg_value::Value;

/// The text, where the value is one; the empty text for any other value.
pub fn text_of(value: &Value) -> &str
    ensures { result.now ≡ text_in (Some (datum_of value.now)) }
{
    match value {
        Value::Text(text) => text.as_str(),
        _ => "",
    }
}
