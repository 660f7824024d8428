ghost use Rattle.std.specs.Prelude.{◌≡◌, map, option_map, IfOk};
ghost use Rattle.run_values.specs.Objects.{header_entries};
ghost use Rattle.http_in.specs.Target.{before_query};
ghost use Rattle.page_meaning.specs.Implicit.{session_datum};
ghost use Rattle.page_meaning.specs.Request.{all_values, first_values, header_texts, param_entry};
ghost use Rattle.page_meaning.specs.Request.{request_record};
ghost use Rattle.pg_value.specs.Value.{datum_of, entry_of};

use crate::name_lists::lists_by_name;
use crate::records::{copied_value, put, record, text_or_null, text_value};
use http_in::{Param, Request};
use page_code::HeaderObject;
use pg_text::{Listed, Text};
use pg_value::{Attrs, Value};
use std::alloc::{AllocError, Global};

/// Each name with the first of its values, as `param` has them.
pub fn first_values(alloc: Global, params: &[Param]) -> Result<Attrs, AllocError>
    ensures { IfOk result (λ values. values ≡ first_values params.now) }
{
    Attrs::from_first_entries(param_entries(alloc, params)?)
}

/// Each name with the list of its values, as `paramValues` has them.
pub fn all_values(alloc: Global, params: &[Param]) -> Result<Attrs, AllocError>
    ensures { IfOk result (λ values. values ≡ all_values params.now) }
{
    lists_by_name(alloc, param_entries(alloc, params)?)
}

// The parameters as entries.
fn param_entries(alloc: Global, params: &[Param]) -> Result<Vec<(Text, Value)>, AllocError>
    ensures { IfOk result (λ entries. map entry_of entries.items ≡ map param_entry params.now) }
{
    let mut entries = Vec::with_capacity(alloc, params.len())?;
    for param in params {
        entries.push((param.name.copy()?, Value::Text(param.value.copy()?)))?;
    }
    Ok(entries)
}

// The fields of a request, with their values as texts, in which bytes that aren't UTF-8 are
// replaced.
fn header_texts(alloc: Global, request: &Request) -> Result<Listed<Param>, AllocError>
    ensures { IfOk result (λ texts. texts ≡ header_texts request.now) }
{
    let mut texts = Listed::empty(alloc);
    for field in request.fields.as_slice() {
        texts.push(Param {
            name: field.name.copy()?,
            value: Text::new(String::from_utf8_lossy(alloc, field.value.as_slice())?)?,
        })?;
    }
    Ok(texts)
}

/// The entries of an object of the request's fields, whose names are in lower case.
pub fn headers(alloc: Global, request: &Request, object: HeaderObject) -> Result<Attrs, AllocError>
    ensures { IfOk result (λ entries. entries ≡ header_entries request.now object) }
{
    let texts = header_texts(alloc, request)?;
    match object {
        HeaderObject::Header => first_values(alloc, texts.as_slice()),
        HeaderObject::HeaderValues => all_values(alloc, texts.as_slice()),
    }
}

/// The request as `pageContext` has it: the record of `contextPath`, `method`, `queryString` and
/// `requestURI`.
pub fn request_record(alloc: Global, request: &Request) -> Result<Value, AllocError>
    ensures { IfOk result (λ made. datum_of made ≡ request_record request.now) }
{
    let mut entries = Attrs::empty(alloc);
    let path = before_query(request.target.as_str());
    put(alloc, &mut entries, "contextPath", copied_value(alloc, "")?)?;
    put(alloc, &mut entries, "method", text_value(&request.method)?)?;
    put(
        alloc,
        &mut entries,
        "queryString",
        text_or_null(&request.query)?,
    )?;
    put(
        alloc,
        &mut entries,
        "requestURI",
        copied_value(alloc, path)?,
    )?;
    record(entries)
}

/// The session as the record of its id, or null where there is none.
pub fn session_value(alloc: Global, id: Option<&Text>) -> Result<Value, AllocError>
    ensures { IfOk result (λ made. datum_of made ≡ session_datum (option_map (λ id. id.now) id.entry)) }
{
    let Some(id) = id else {
        return Ok(Value::Null);
    };
    let mut entries = Attrs::empty(alloc);
    put(alloc, &mut entries, "id", text_value(id)?)?;
    record(entries)
}

/// A target without its query.
pub fn before_query(target: &str) -> &str
    ensures { result.now ≡ before_query target.now }
{
    match target.split_once('?') {
        Some((path, _)) => path,
        None => target,
    }
}
