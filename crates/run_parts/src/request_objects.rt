// What a page sees of its request, and of its fault and its session, as values.
ghost use Rattle.std.specs.Prelude.{◌≡◌, option_map, IfOk};
ghost use Rattle.page_meaning.specs.Implicit.{exception_datum};
ghost use Rattle.pg_text.specs.Failure.{AnswersAs};
ghost use Rattle.pg_value.specs.Value.{datum_of};
ghost use Rattle.run_parts.specs.Objects.{page_context_of, request_value};
ghost use Rattle.run_parts.specs.Records.{AreFieldsOf, IsRecordsOf};
ghost use Rattle.run_values.specs.Objects.{header_answer};
ghost use Rattle.run_world.specs.Params.{params_of};
ghost use Rattle.run_world.specs.Seats.{raise_of};

use crate::param_records::{param, param_values};
use crate::request_records::{FieldRecords, RequestRecords, cookie, header};
use el_coercion::to_text;
use http_in::Request;
use page_code::{HeaderObject, Implicit};
use pg_text::{Failure, Text};
use pg_value::{Attrs, RunFault, Value};
use run_values::{fault_record, put, record, request_record, session_value};
use run_world::{Params, Raise, Served};
use std::alloc::{AllocError, Global};

// The fault that an error page sees, as a record.
fn exception_value(alloc: Global, exception: Option<&Raise>) -> Result<Value, AllocError>
    ensures { IfOk result (λ made. datum_of made
        ≡ exception_datum (option_map (λ raise. raise_of raise.now) exception.entry)) }
{
    match exception {
        Some(raise) => fault_record(alloc, raise.fault, &raise.place),
        None => Ok(Value::Null),
    }
}

// The record that `pageContext` is.
fn page_context(alloc: Global, served: &Served, id: Option<&Text>) -> Result<Value, AllocError>
    ensures { IfOk result (λ made. datum_of made ≡ page_context_of served.now.request.now
        (option_map (λ raise. raise_of raise.now) served.now.exception) (option_map (λ id. id.now) id.entry)) }
{
    let mut entries = Attrs::empty(alloc);
    let exception = exception_value(alloc, served.exception)?;
    put(alloc, &mut entries, "exception", exception)?;
    put(
        alloc,
        &mut entries,
        "request",
        request_record(alloc, served.request)?,
    )?;
    put(alloc, &mut entries, "session", session_value(alloc, id)?)?;
    record(entries)
}

// The value of an implicit object that no scope is.
pub(crate) fn request_value(
    alloc: Global,
    served: &Served,
    params: &Params,
    records: &mut RequestRecords,
    id: Option<&Text>,
    object: Implicit,
) -> Result<Value, AllocError>
    requires { IsRecordsOf served.now.request.now params.now records.old }
    ensures value { IfOk result (λ made. datum_of made ≡ request_value served.now.request.now
        (option_map (λ raise. raise_of raise.now) served.now.exception) (option_map (λ id. id.now) id.entry)
        (params_of params.now) object) }
    ensures records { IsRecordsOf served.now.request.now params.now records.new }
{
    match object {
        Implicit::PageContext => page_context(alloc, served, id),
        Implicit::Param => Ok(Value::Rec(param(alloc, params, &mut records.params)?)),
        Implicit::ParamValues => {
            let made = param_values(alloc, params, &mut records.params)?;
            Ok(Value::Rec(made))
        }
        Implicit::Header(object) => {
            let made = header(alloc, served.request, object, &mut records.fields)?;
            Ok(Value::Rec(made))
        }
        Implicit::Cookie => {
            let made = cookie(alloc, served.request, &mut records.cookie)?;
            Ok(Value::Rec(made))
        }
        Implicit::InitParam => record(Attrs::empty(alloc)),
        Implicit::Scope(_) => Ok(Value::Null),
    }
}

// The entry of an object of the request's fields under a value, in lower case; null under null:
// X20.
pub(crate) fn header_entry(
    alloc: Global,
    request: &Request,
    object: HeaderObject,
    kept: &mut FieldRecords,
    key: &Value,
) -> Result<Value, Failure<RunFault>>
    requires kept { AreFieldsOf request.now kept.old }
    ensures answer { AnswersAs datum_of (header_answer request.now object (datum_of key.now)) result }
    ensures kept { AreFieldsOf request.now kept.new }
{
    if let Value::Null = key {
        return Ok(Value::Null);
    }
    let name = to_text(alloc, key)?.as_str().to_ascii_lowercase(alloc)?;
    match header(alloc, request, object, kept)?.get(&name) {
        Some(value) => Ok(value.copy()?),
        None => Ok(Value::Null),
    }
}
