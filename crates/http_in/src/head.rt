ghost use Rattle.std.specs.Prelude.{◌≡◌, ◌≤◌, [], IfOk, IfSome, IfNone, length};
ghost use Rattle.httparse.specs.Grammar.{RequestHead, ReadsRequest};
ghost use Rattle.httparse.specs.Spans.{IsRequestAt, IsRequestWithin};
ghost use Rattle.http_in.specs.Faults.{IfFault};
ghost use Rattle.http_in.specs.Head.{IsBadHead, sized};
ghost use Rattle.http_in.specs.Parts.{HasParts};

use crate::fields::fields_at;
use crate::limits::{MAX_BODY_BYTES, MAX_FIELDS};
use crate::lookups::{body_size, count_of};
use crate::text::text_of;
use crate::{Field, HttpFault};
use httparse::Status;
use httparse::spans::{EMPTY_HEADER_SPAN, HeaderSpan, RequestSpans, parse_request};
use pg_text::{Failure, Listed, Text};
use std::alloc::Global;

// The parts of a head that is read, and the size of the body after it.
#[derive(Drop)]
pub struct Head {
    pub method: Text,
    pub target: Text,
    pub fields: Listed<Field>,
    pub size: usize,
}

// Reads a head that stands there whole.
pub fn parse_head(alloc: Global, bytes: &[u8]) -> Result<Head, Failure<HttpFault>>
    ensures good { IfOk result (HasParts bytes.now) }
    ensures small { IfOk result (λ head. head.size ≤ MAX_BODY_BYTES) }
    ensures bad { IfFault result (IsBadHead bytes.now) }
{
    let mut spans = [EMPTY_HEADER_SPAN; MAX_FIELDS];
    let Some(request) = whole_head(bytes, &mut spans) else {
        return Err(Failure::Fault(HttpFault::BadHead));
    };
    let target = request.path.of(bytes);
    let fields = fields_at(alloc, bytes, &spans[..request.headers])?;
    let size = match sized(request.version, target, fields.as_slice()) {
        Ok(size) => size,
        Err(fault) => return Err(Failure::Fault(fault)),
    };
    Ok(Head {
        method: Text::copy_of(alloc, text_of(request.method.of(bytes)))?,
        target: Text::copy_of(alloc, text_of(target))?,
        fields,
        size,
    })
}

// Where the parts of the head are, if the bytes are, whole, a head of the grammar.
fn whole_head(bytes: &[u8], spans: &mut [HeaderSpan]) -> Option<RequestSpans>
    requires room { length spans.old ≡ MAX_FIELDS }
    ensures found { IfSome result (λ r. (h : RequestHead) × ReadsRequest bytes.now h [] × IsRequestAt
        bytes.now spans.new r h) }
    ensures within { IfSome result (IsRequestWithin bytes.now spans.new) }
    ensures none { IfNone result ((h : RequestHead) → ReadsRequest bytes.now h [] →
        length h.fields ≤ MAX_FIELDS → ⊥) }
{
    match parse_request(bytes, spans) {
        Ok(Status::Complete(request)) if request.len == bytes.len() => Some(request),
        _ => None,
    }
}

// The size of the body after a head, or the first fault of the head.
fn sized(version: u8, target: &[u8], fields: &[Field]) -> Result<usize, HttpFault>
    ensures answer { result ≡ sized version target.now fields.now }
    ensures small { IfOk result (λ size. size ≤ MAX_BODY_BYTES) }
{
    if version == 0 {
        return Err(HttpFault::WrongVersion);
    }
    if !target.starts_with(b"/") || count_of(fields, "host") != 1 {
        return Err(HttpFault::BadHead);
    }
    if count_of(fields, "transfer-encoding") != 0 {
        return Err(HttpFault::ChunkedRequest);
    }
    let Some(size) = body_size(fields) else {
        return Err(HttpFault::BadLength);
    };
    if size > MAX_BODY_BYTES {
        return Err(HttpFault::BodyTooLarge);
    }
    Ok(size as usize)
}
