ghost use Rattle.std.specs.Prelude.{◌≡◌, ◌<◌, ◌∷◌, ◌++◌, length, option_map, option_to_list, IfOk};
ghost use Rattle.std.specs.Prelude.{IfSome, OnOk};
ghost use Rattle.std.specs.List.{slice_split};
ghost use Rattle.run_values.specs.Objects.{cookies_between, pieces_behind};
ghost use Rattle.page_meaning.specs.Request.{cookie_entry, cookie_in, cookie_records, cookies};
ghost use Rattle.page_meaning.specs.Request.{is_semicolon};
ghost use Rattle.pg_value.specs.Value.{entry_of};

use crate::blanks::trim;
use crate::records::{put, record, text_value};
use http_in::{Param, Request};
use pg_text::{Listed, Text};
use pg_value::{Attrs, Value};
use std::alloc::{AllocError, Global};

// The cookies of a request in the order sent: of each piece between semicolons of its Cookie fields
// the name and the value at the sides of the first `=`, where there is one with a name before it.
fn cookies(alloc: Global, request: &Request) -> Result<Listed<Param>, AllocError>
    ensures { IfOk result (λ found. found ≡ cookies request.now) }
{
    let mut found = Listed::empty(alloc);
    for field in request.fields.as_slice() {
        if field.name.as_str() == "cookie" {
            let value = String::from_utf8_lossy(alloc, field.value.as_slice())?;
            add_cookies(alloc, &value, &mut found)?;
        }
    }
    Ok(found)
}

// Puts the cookies in a text behind the others.
fn add_cookies(alloc: Global, value: &str, found: &mut Listed<Param>) -> Result<(), AllocError>
    ensures { OnOk result (found.new ≡ found.old ++ cookies_between value.now) }
{
    let mut behind = Some(value);
    while let Some(text) = behind {
        let (piece, rest) = cut(text);
        if let Some(cookie) = cookie_in(alloc, trim(piece))? {
            found.push(cookie)?;
        }
        behind = rest;
    }
    Ok(())
}

// The text before the first semicolon, and the text behind it, where there is one.
fn cut(text: &str) -> (&str, Option<&str>)
    ensures pieces { slice_split is_semicolon text.entry.now
        ≡ result.0.now ∷ pieces_behind (option_map (λ behind. behind.now) result.1) }
    ensures shorter { IfSome result.1 (λ behind. length behind.now < length text.entry.now) }
{
    match text.split_once(';') {
        Some((before, behind)) => (before, Some(behind)),
        None => (text, None),
    }
}

// The cookie in a piece, where it is one.
fn cookie_in(alloc: Global, piece: &str) -> Result<Option<Param>, AllocError>
    ensures { IfOk result (λ found. option_to_list found ≡ cookie_in piece.now) }
{
    match piece.split_once('=') {
        None => Ok(None),
        Some((name, _)) if name.is_empty() => Ok(None),
        Some((name, value)) => Ok(Some(Param {
            name: Text::copy_of(alloc, name)?,
            value: Text::copy_of(alloc, value)?,
        })),
    }
}

/// Each cookie's name with the record of the first of that name.
pub fn cookie_records(alloc: Global, request: &Request) -> Result<Attrs, AllocError>
    ensures { IfOk result (λ records. records ≡ cookie_records request.now) }
{
    let mut entries = Vec::new(alloc);
    for cookie in cookies(alloc, request)?.as_slice() {
        entries.push(cookie_entry(alloc, cookie)?)?;
    }
    Attrs::from_first_entries(entries)
}

// A cookie's name with the record of its name and its value.
fn cookie_entry(alloc: Global, cookie: &Param) -> Result<(Text, Value), AllocError>
    ensures { IfOk result (λ made. entry_of made ≡ cookie_entry cookie.now) }
{
    let mut parts = Attrs::empty(alloc);
    put(alloc, &mut parts, "name", text_value(&cookie.name)?)?;
    put(alloc, &mut parts, "value", text_value(&cookie.value)?)?;
    Ok((cookie.name.copy()?, record(parts)?))
}
