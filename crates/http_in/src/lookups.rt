ghost use Rattle.std.specs.Prelude.{◌≡◌, length, codes};
ghost use Rattle.std.specs.Str.{bytes_eq, str_eq_ignore_ascii_case};
ghost use Rattle.http_in.specs.Fields.{values_of, asks_to_close, has_close};
ghost use Rattle.http_in.specs.Length.{size_of};

use crate::Field;
use crate::trim::trim;
use pg_text::whole_number;

const CONTENT_LENGTH: &str = "content-length";

const CONNECTION: &str = "connection";

const CLOSE: &[u8] = b"close";

// How many of the fields have this name.
pub fn count_of(fields: &[Field], name: &str) -> usize
    ensures { result ≡ length (values_of name.now fields.now) }
{
    fields.iter().filter(|field| is_named(field, name)).count()
}

// The size of the body, where the fields agree on one.
pub fn body_size(fields: &[Field]) -> Option<u64>
    ensures { result ≡ size_of (values_of (codes "content-length") fields.now) }
{
    let mut found: Option<u64> = None;
    for field in fields {
        if is_named(field, CONTENT_LENGTH) {
            let size = whole_number(field.value.as_slice())?;
            if found.unwrap_or(size) != size {
                return None;
            }
            found = Some(size);
        }
    }
    Some(found.unwrap_or(0))
}

// Whether a Connection field asks to close the connection after this request.
pub fn asks_to_close(fields: &[Field]) -> bool
    ensures { result ≡ asks_to_close fields.now }
{
    fields.iter().any(|field| is_named(field, CONNECTION) && has_close(field.value.as_slice()))
}

// Whether an item of the value is `close`.
fn has_close(value: &[u8]) -> bool
    ensures { result ≡ has_close value.now }
{
    value
        .split(|b| *b == b',')
        .any(|item| is_same(trim(item), CLOSE))
}

// Whether the field has this name, which is in lower case.
pub fn is_named(field: &Field, name: &str) -> bool
    ensures { result ≡ bytes_eq field.now.name name.now }
{
    field.name.as_str() == name
}

// Whether the bytes are equal but for their case.
pub fn is_same(bytes: &[u8], wanted: &[u8]) -> bool
    ensures { result ≡ str_eq_ignore_ascii_case bytes.now wanted.now }
{
    bytes.eq_ignore_ascii_case(wanted)
}
