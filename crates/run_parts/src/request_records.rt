// The records of a request that may be large, each made when a page run first looks at it.
ghost use Rattle.std.specs.Prelude.{◌≡◌, IfOk, OnErr, OnOk};
ghost use Rattle.http_in.specs.declared.request.Request.{Request as Request'};
ghost use Rattle.page_meaning.specs.Request.{cookie_records};
ghost use Rattle.run_parts.specs.Records.{AreFieldsOf, IsKept, IsRecordsOf};
ghost use Rattle.run_values.specs.Objects.{header_entries};
ghost use Rattle.run_world.specs.declared.params.Params.{Before, Params as Params'};

use crate::param_records::ParamRecords;
use http_in::Request;
use page_code::HeaderObject;
use pg_value::Record;
use run_values::{cookie_records, headers};
use std::alloc::{AllocError, Global};
use std::mem;

/// The records of the parameters, the fields and the cookies that a page run has looked at. Each is
/// made once, and shared by all looks.
#[derive(Drop)]
pub struct RequestRecords {
    pub params: ParamRecords,
    pub fields: FieldRecords,
    pub cookie: Option<Record>,
}

/// The records of a request's fields that a page run has looked at: with the first value of each
/// name, and with the list of its values.
#[derive(Drop)]
pub struct FieldRecords {
    pub header: Option<Record>,
    pub header_values: Option<Record>,
}

impl RequestRecords {
    /// None is made yet.
    pub fn none() -> Self
        ensures { (request : Request') (params : Params') → IsRecordsOf request params result }
    {
        RequestRecords {
            params: ParamRecords::none(),
            fields: FieldRecords {
                header: None,
                header_values: None,
            },
            cookie: None,
        }
    }

    /// Sets aside what was made of the parameters, for an included page that has some of its own in
    /// front of them.
    pub fn set_params_aside(&mut self, alloc: Global) -> Result<(), AllocError>
        ensures ok { (request : Request') (own : _) (params : _) → OnOk result
            (IsRecordsOf request params.now self.old → IsRecordsOf request (Before own params) self.new) }
        ensures err { OnErr result (self.new ≡ self.old) }
    {
        self.params.come_into_blocks()?;
        let mut outer = Box::new(alloc, ParamRecords::none())?;
        mem::swap(&mut self.params, &mut *outer);
        self.params = ParamRecords {
            param: None,
            param_values: None,
            outer: Some(outer),
        };
        Ok(())
    }

    /// Puts back what was set aside.
    pub fn put_params_back(&mut self)
        ensures { (request : Request') (own : _) (params : _) →
            IsRecordsOf request (Before own params) self.old → IsRecordsOf request params.now self.new }
    {
        self.params = match self.params.outer.take() {
            Some(outer) => Box::into_inner(outer),
            None => ParamRecords::none(),
        };
    }
}

// An object of the request's fields.
fn field_record(
    alloc: Global,
    request: &Request,
    object: HeaderObject,
    kept: &mut Option<Record>,
) -> Result<Record, AllocError>
    requires kept { IsKept (header_entries request.now object) kept.old }
    ensures made { IfOk result (λ made. made ≡ header_entries request.now object) }
    ensures kept { IsKept (header_entries request.now object) kept.new }
{
    if let Some(record) = kept {
        return record.copy();
    }
    let made = Record::new(headers(alloc, request, object)?)?;
    *kept = Some(made.copy()?);
    Ok(made)
}

// Each field's name with the first of its values, or with the list of them.
pub(crate) fn header(
    alloc: Global,
    request: &Request,
    object: HeaderObject,
    kept: &mut FieldRecords,
) -> Result<Record, AllocError>
    requires kept { AreFieldsOf request.now kept.old }
    ensures made { IfOk result (λ made. made ≡ header_entries request.now object) }
    ensures kept { AreFieldsOf request.now kept.new }
{
    match object {
        HeaderObject::Header => field_record(alloc, request, object, &mut kept.header),
        HeaderObject::HeaderValues => {
            field_record(alloc, request, object, &mut kept.header_values)
        }
    }
}

// Each cookie's name with the record of the first of that name.
pub(crate) fn cookie(
    alloc: Global,
    request: &Request,
    kept: &mut Option<Record>,
) -> Result<Record, AllocError>
    requires kept { IsKept (cookie_records request.now) kept.old }
    ensures made { IfOk result (λ made. made ≡ cookie_records request.now) }
    ensures kept { IsKept (cookie_records request.now) kept.new }
{
    if let Some(record) = kept {
        return record.copy();
    }
    let made = Record::new(cookie_records(alloc, request)?)?;
    *kept = Some(made.copy()?);
    Ok(made)
}
