ghost use Rattle.std.specs.Prelude.{◌≡◌, ◌++◌, [], unwrap_or, IfOk, OnOk, if◌then◌else◌};
ghost use Rattle.std.specs.Cow.{cow_str_bytes};
ghost use Rattle.std.specs.Option.{option_map};
ghost use Rattle.http_in.specs.Params.{has_form, is_form_type, params_in};

use crate::Field;
use crate::lookups::{is_named, is_same};
use crate::trim::trim;
use form_urlencoded::parse;
use pg_text::{Duplicate, Listed, Text};
use std::alloc::{AllocError, Global};
use std::borrow::CowStr;

const CONTENT_TYPE: &str = "content-type";

const FORM: &[u8] = b"application/x-www-form-urlencoded";

/// A parameter of a request.
#[derive(Drop)]
pub struct Param {
    pub name: Text,
    pub value: Text,
}

impl Duplicate for Param {
    fn duplicate(&self) -> Result<Self, AllocError> {
        Ok(Param {
            name: self.name.copy()?,
            value: self.value.copy()?,
        })
    }
}

// The parameters of a request of these parts.
pub fn params_of(
    alloc: Global,
    method: &str,
    query: Option<&str>,
    fields: &[Field],
    body: &[u8],
) -> Result<Listed<Param>, AllocError>
    ensures { IfOk result (λ params. params ≡ params_in (unwrap_or (option_map (λ text. text.now) query.entry) [])
        ++ (if has_form method.now fields.now then params_in body.now else [])) }
{
    let mut params = query_params(alloc, query.unwrap_or(""))?;
    if has_form(method, fields) {
        add_params(&mut params, alloc, body)?;
    }
    Ok(params)
}

/// The parameters in a query, in their order, as [`read_request`](crate::read_request) reads those
/// of a request.
pub fn query_params(alloc: Global, query: &str) -> Result<Listed<Param>, AllocError>
    ensures { IfOk result (λ params. params ≡ params_in query.now) }
{
    let mut params = Listed::empty(alloc);
    add_params(&mut params, alloc, query.as_bytes())?;
    Ok(params)
}

// Adds the parameters in a query or a form behind the others.
#[tactic(auto, unfolding(crate::specs::Params::params_in))]
fn add_params(params: &mut Listed<Param>, alloc: Global, text: &[u8]) -> Result<(), AllocError>
    ensures { OnOk result (params.new ≡ params.old ++ params_in text.now) }
{
    for pair in parse(alloc, text) {
        let (name, value) = pair?;
        params.push(Param {
            name: text_from(alloc, name)?,
            value: text_from(alloc, value)?,
        })?;
    }
    Ok(())
}

// The text that a part is. A short one takes no memory where it stands as it was sent.
fn text_from(alloc: Global, part: CowStr<'_, Global>) -> Result<Text, AllocError>
    ensures { IfOk result (λ text. text ≡ cow_str_bytes part.entry) }
{
    match part {
        CowStr::Borrowed(text) => Text::copy_of(alloc, text),
        CowStr::Owned(text) => Text::new(text),
    }
}

// Whether a request of this method and fields has a form for its body.
fn has_form(method: &str, fields: &[Field]) -> bool
    ensures { result ≡ has_form method.now fields.now }
{
    method == "POST"
        && fields.iter().any(|field| is_named(field, CONTENT_TYPE)
            && is_form_type(field.value.as_slice()))
}

// Whether the media type is that of a form.
fn is_form_type(value: &[u8]) -> bool
    ensures { result ≡ is_form_type value.now }
{
    let end = value.iter().position(|b| *b == b';').unwrap_or(value.len());
    is_same(trim(&value[..end]), FORM)
}
