ghost use Rattle.std.specs.Prelude.{◌≡◌, length, map, All, IfOk};
ghost use Rattle.std.specs.Str.{str_to_ascii_lowercase};
ghost use Rattle.httparse.specs.Grammar.{IsToken};
ghost use Rattle.httparse.specs.Spans.{header_bytes, IsHeaderWithin};
ghost use Rattle.http_in.specs.Fields.{field_of};

use crate::text::text_of;
use httparse::spans::HeaderSpan;
use pg_text::{Bytes, Listed, Text};
use std::alloc::{AllocError, Global};

// The most bytes of a name that is put into lower case before it is a text.
const NAME_BYTES: usize = 32;

/// A field of a head.
#[derive(Drop)]
pub struct Field {
    /// The name in lower case.
    pub name: Text,
    /// The value, without spaces and tabs at its ends. It may have bytes that are no text.
    pub value: Bytes,
}

// The fields at these spans, in their order.
pub fn fields_at(
    alloc: Global,
    head: &[u8],
    spans: &[HeaderSpan],
) -> Result<Listed<Field>, AllocError>
    requires within { All (IsHeaderWithin (length head.now)) spans.now }
    requires names { All (λ field. IsToken field.0) (map (header_bytes head.now) spans.now) }
    ensures { IfOk result (λ fields. fields ≡ map field_of (map (header_bytes head.now) spans.now)) }
{
    let mut items = Vec::with_capacity(alloc, spans.len())?;
    for span in spans {
        items.push(read_field(alloc, span.name.of(head), span.value.of(head))?)?;
    }
    Ok(Listed::new(items))
}

// The field of this name and value.
fn read_field(alloc: Global, name: &[u8], value: &[u8]) -> Result<Field, AllocError>
    requires { IsToken name.now }
    ensures { IfOk result (λ field. field ≡ field_of (name.now, value.now)) }
{
    Ok(Field {
        name: lower_name(alloc, name)?,
        value: Bytes::copy_of(alloc, value)?,
    })
}

// The name in lower case.
fn lower_name(alloc: Global, name: &[u8]) -> Result<Text, AllocError>
    requires { IsToken name.now }
    ensures { IfOk result (λ text. text ≡ str_to_ascii_lowercase name.now) }
{
    if name.len() > NAME_BYTES {
        return Text::new(text_of(name).to_ascii_lowercase(alloc)?);
    }
    let mut room = [0; NAME_BYTES];
    let lower = &mut room[..name.len()];
    lower.copy_from_slice(name);
    lower.make_ascii_lowercase();
    Text::copy_of(alloc, text_of(lower))
}
