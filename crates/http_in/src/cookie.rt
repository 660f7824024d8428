ghost use Rattle.std.specs.Prelude.{◌≡◌, ◌≤◌, IfOk, codes, length, map};
ghost use Rattle.std.specs.Option.{option_map};
ghost use Rattle.http_in.specs.Cookie.{can_be_id, first_some, is_session, session_in, session_of};
ghost use Rattle.http_in.specs.Fields.{values_of};

use crate::Field;
use crate::limits::SESSION_ID_BYTES;
use crate::lookups::is_named;
use crate::text::text_of;
use crate::trim::trim;
use pg_text::Text;
use std::alloc::{AllocError, Global};

const COOKIE: &str = "cookie";

const SESSION_NAME: &[u8] = b"JSESSIONID=";

// The id of the session that the fields name, or no bytes.
#[tactic(auto, using(crate::proofs::Cookies::session_is_short))]
pub fn session_of(alloc: Global, fields: &[Field]) -> Result<Text, AllocError>
    ensures id { IfOk result (λ id. id ≡ session_of fields.now) }
    ensures short { IfOk result (λ id. length id ≤ SESSION_ID_BYTES) }
{
    match first_session(fields) {
        Some(value) if can_be_id(value) => Text::copy_of(alloc, text_of(value)),
        _ => Text::copy_of(alloc, ""),
    }
}

// The value of the first of the session's cookies.
fn first_session(fields: &[Field]) -> Option<&[u8]>
    ensures { option_map (λ value. value.now) result
        ≡ first_some (map session_in (values_of (codes "cookie") fields.now)) }
{
    for field in fields {
        if is_named(field, COOKIE) {
            if let Some(value) = session_in(field.value.as_slice()) {
                return Some(value);
            }
        }
    }
    None
}

// The value of the first of the session's cookies in a Cookie field.
fn session_in(value: &[u8]) -> Option<&[u8]>
    ensures { option_map (λ value. value.now) result ≡ session_in value.now }
{
    let piece = value.split(|b| *b == b';').find(|piece| is_session(piece))?;
    Some(&trim(piece)[SESSION_NAME.len()..])
}

// Whether a piece of a Cookie field is the session's cookie.
fn is_session(piece: &[u8]) -> bool
    ensures { result ≡ is_session piece.now }
{
    trim(piece).starts_with(SESSION_NAME)
}

// Whether a value can be the id of a session.
fn can_be_id(value: &[u8]) -> bool
    ensures { result ≡ can_be_id value.now }
{
    value.len() == SESSION_ID_BYTES
        && value
            .iter()
            .all(|b| matches!(*b, b'0'..=b'9' | b'a'..=b'f'))
}
