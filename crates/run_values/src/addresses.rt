ghost use Rattle.std.specs.Prelude.{◌≡◌, ◌++◌, codes, if◌then◌else◌, map, string_bytes, IfOk};
ghost use Rattle.std.specs.declared.option.Option.TheVariants.{Some};
ghost use Rattle.std.specs.List.{list_any};
ghost use Rattle.el_coercion.specs.Text.{made};
ghost use Rattle.form_urlencoded.specs.Form.{byte_serialize};
ghost use Rattle.http_in.specs.Target.{is_mark};
ghost use Rattle.page_meaning.specs.Addresses.{url_with, with_param};
ghost use Rattle.page_meaning.specs.Attributes.{text_in};
ghost use Rattle.page_table.specs.Operations.{params_in};
ghost use Rattle.pg_text.specs.Failure.{Answers};
ghost use Rattle.pg_value.specs.Value.{datum_of};

use crate::texts::text_of;
use el_coercion::made_text;
use form_urlencoded::Serializer;
use http_in::Param;
use pg_text::{Failure, Listed, Text};
use pg_value::{RunFault, Value};
use std::alloc::{AllocError, Global};

/// Texts as the names and values of params, two by two. A last one alone is left out.
pub fn params_in(alloc: Global, values: &[Value]) -> Result<Listed<Param>, AllocError>
    ensures { IfOk result (λ params. params ≡ params_in (map datum_of values.now)) }
{
    let mut params = Listed::empty(alloc);
    let mut rest = values;
    while let [name, value, behind @ ..] = rest {
        params.push(Param {
            name: Text::copy_of(alloc, text_of(name))?,
            value: Text::copy_of(alloc, text_of(value))?,
        })?;
        rest = behind;
    }
    Ok(params)
}

/// An address with its params behind it, those with an empty name left out: X20.
pub fn url(alloc: Global, address: &Value, params: &[Value]) -> Result<Text, Failure<RunFault>>
    ensures { Answers (url_with (text_in (Some (datum_of address.now))) (params_in (map datum_of params.now))) result }
{
    let pairs = params_in(alloc, params)?;
    let mut url = Text::copy_of(alloc, text_of(address))?;
    let mut marked = has_mark(url.as_bytes());
    for param in pairs.as_slice() {
        url = with_param(alloc, url, &mut marked, param)?;
    }
    Ok(url)
}

// An address with one param behind it, where it has a name: X20. It is told whether the address has
// a `?`, and tells it of the one that it makes.
#[tactic(auto, using(crate::proofs::AddressLemmas::stays_marked))]
fn with_param(
    alloc: Global,
    url: Text,
    marked: &mut bool,
    param: &Param,
) -> Result<Text, Failure<RunFault>>
    requires { marked.old ≡ list_any is_mark url }
    ensures answer { Answers (with_param url param.now) result }
    ensures marked { IfOk result (λ made. marked.new ≡ list_any is_mark made) }
{
    if param.name.is_empty() {
        return Ok(url);
    }
    let mark = param_mark(*marked);
    *marked = true;
    joined_param(alloc, url, mark, param)
}

// An address, a mark and a param, in one: X20.
fn joined_param(
    alloc: Global,
    url: Text,
    mark: &str,
    param: &Param,
) -> Result<Text, Failure<RunFault>>
    ensures { Answers (made (url ++ mark.now ++ byte_serialize param.now.name ++ codes "="
        ++ byte_serialize param.now.value)) result }
{
    let pair = encoded(alloc, param)?;
    let mut made = url.into_string()?;
    made.push_str(mark)?;
    made.push_str(&pair)?;
    made_text(made)
}

// What joins a param to an address that has a `?`, or that has none.
fn param_mark(marked: bool) -> &'static str
    ensures { result.now ≡ if marked then codes "&" else codes "?" }
{
    if marked { "&" } else { "?" }
}

fn has_mark(url: &[u8]) -> bool
    ensures { result ≡ list_any is_mark url.now }
{
    url.iter().any(|byte| *byte == b'?')
}

// A param as it stands in an address.
fn encoded(alloc: Global, param: &Param) -> Result<String, AllocError>
    ensures { IfOk result (λ text. string_bytes text ≡ byte_serialize param.now.name ++ codes "="
        ++ byte_serialize param.now.value) }
{
    let mut form = Serializer::new(String::new(alloc));
    form.append_pair(param.name.as_str(), param.value.as_str())?;
    Ok(form.finish())
}
