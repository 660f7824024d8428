ghost use Rattle.std.specs.Prelude.{◌≡◌, ◌++◌, [], OnOk, IfOk, codes, if◌then◌else◌};
ghost use Rattle.http_out.specs.Head.{field, head_text, measured};

use crate::methods::ALLOW;
use crate::{ContentType, Head};
use itoa::Buffer;
use pg_text::Text;
use std::alloc::{AllocError, Global};

/// Room for a head without a location, with a session that begins.
const HEAD_BYTES: usize = 256;

const LINE_END: &[u8] = b"\r\n";

const SESSION_ID: &[u8] = b"Set-Cookie: JSESSIONID=";

const SESSION_END: &[u8] = b"; Path=/; HttpOnly\r\n";

/// The head of a response, with the length of its body where that is known before. It has room for
/// so many bytes behind it.
#[tactic(auto, unfolding(crate::specs::Head::head_text))]
pub(crate) fn head_text(
    alloc: Global,
    head: &Head,
    length: Option<usize>,
    room: usize,
) -> Result<Vec<u8>, AllocError>
    ensures { IfOk result (λ text. text.items ≡ head_text head.now (measured length)) }
{
    let mut text = Vec::with_capacity(alloc, HEAD_BYTES.saturating_add(room))?;
    text.extend_from_slice(b"HTTP/1.1 ")?;
    text.extend_from_slice(head.status.as_str().as_bytes())?;
    text.extend_from_slice(LINE_END)?;
    add_type(&mut text, &head.content_type)?;
    add_field(&mut text, SESSION_ID, &head.set_cookie, SESSION_END)?;
    add_field(&mut text, b"Location: ", &head.location, LINE_END)?;
    add_where(&mut text, head.allow, ALLOW)?;
    add_length(&mut text, length)?;
    add_where(&mut text, head.close, b"Connection: close\r\n")?;
    text.extend_from_slice(b"\r\n")?;
    Ok(text)
}

// Adds the field for the length of the body.
fn add_length(text: &mut Vec<u8>, length: Option<usize>) -> Result<(), AllocError>
    ensures { OnOk result (text.new.items ≡ text.old.items ++ measured length) }
{
    let Some(length) = length else {
        return text.extend_from_slice(b"Transfer-Encoding: chunked\r\n");
    };
    text.extend_from_slice(b"Content-Length: ")?;
    text.extend_from_slice(Buffer::new().format(length).as_bytes())?;
    text.extend_from_slice(b"\r\n")
}

// Adds the field for the type of the body, where it has one.
fn add_type(text: &mut Vec<u8>, content_type: &Option<ContentType>) -> Result<(), AllocError>
    ensures { OnOk result (text.new.items
        ≡ text.old.items ++ field (codes "Content-Type: ") content_type.now (codes "\r\n")) }
{
    match content_type {
        None => Ok(()),
        Some(name) => add_line(text, b"Content-Type: ", name.as_bytes(), LINE_END),
    }
}

// Adds a field where it has a value.
fn add_field(
    text: &mut Vec<u8>,
    name: &[u8],
    value: &Option<Text>,
    end: &[u8],
) -> Result<(), AllocError>
    ensures { OnOk result (text.new.items ≡ text.old.items ++ field name.now value.now end.now) }
{
    match value {
        None => Ok(()),
        Some(value) => add_line(text, name, value.as_bytes(), end),
    }
}

// Adds a field with its value.
fn add_line(text: &mut Vec<u8>, name: &[u8], value: &[u8], end: &[u8]) -> Result<(), AllocError>
    ensures { OnOk result (text.new.items ≡ text.old.items ++ (name.now ++ value.now ++ end.now)) }
{
    text.extend_from_slice(name)?;
    text.extend_from_slice(value)?;
    text.extend_from_slice(end)
}

// Adds a field where it is set.
fn add_where(text: &mut Vec<u8>, flag: bool, field: &[u8]) -> Result<(), AllocError>
    ensures { OnOk result (text.new.items ≡ text.old.items ++ (if flag then field.now else [])) }
{
    if !flag {
        return Ok(());
    }
    text.extend_from_slice(field)
}
