// Requests that are read from bytes in memory.
ghost use Rattle.std.specs.Prelude.{◌≤◌};

use crate::shown::{add_line, add_parts, fields, name_of};
use edges::MemSource;
use http_in::{Request, Rest, read_request};
use pg_text::{Failure, Text, whole_number};
use std::alloc::{AllocError, Global};

// Each request as a line, and then what stops them. Each read gives so many bytes, but for those
// that fail.
fn stream_told(
    alloc: Global,
    bytes: &[u8],
    piece: usize,
    fails: &[u64],
) -> Result<String, AllocError>
    requires { 1 ≤ piece }
{
    let mut source = source_of(alloc, bytes, piece, fails)?;
    let mut told = String::new(alloc);
    add_all(alloc, &mut told, &mut source)?;
    Ok(told)
}

// A source of these bytes.
fn source_of(
    alloc: Global,
    bytes: &[u8],
    piece: usize,
    fails: &[u64],
) -> Result<MemSource, AllocError>
    requires { 1 ≤ piece }
{
    let bytes = bytes.to_vec(alloc)?;
    Ok(MemSource::new(bytes, piece, fails.to_vec(alloc)?))
}

// Adds ten requests at most, and what stops them.
fn add_all(alloc: Global, told: &mut String, source: &mut MemSource) -> Result<(), AllocError> {
    let mut rest = Rest::new(alloc);
    for _ in 0..10 {
        if !add_next(alloc, told, source, &mut rest)? {
            break;
        }
    }
    Ok(())
}

// Adds the next request, or what stops them; and whether another may come.
fn add_next(
    alloc: Global,
    told: &mut String,
    source: &mut MemSource,
    rest: &mut Rest,
) -> Result<bool, AllocError> {
    match read_request(alloc, source, rest) {
        Ok(Some(request)) => add_request(told, &request),
        Ok(None) => add_end(told, "end"),
        Err(Failure::NoMemory) => Err(AllocError),
        Err(Failure::Fault(fault)) => add_end(told, name_of(fault)),
    }
}

// Adds a request, behind which another may come.
fn add_request(told: &mut String, request: &Request) -> Result<bool, AllocError> {
    add_line(told, request)?;
    Ok(true)
}

// Adds what stops them.
fn add_end(told: &mut String, end: &str) -> Result<bool, AllocError> {
    told.push_str(end)?;
    Ok(false)
}

/// Each request as a line, and then what stops them.
pub fn requests_told(alloc: Global, bytes: &[u8]) -> Result<String, AllocError> {
    let by_bytes = stream_told(alloc, bytes, 1, &[])?;
    let at_once = stream_told(alloc, bytes, 65_536, &[])?;
    same(alloc, by_bytes, at_once)
}

/// The same where seven bytes come at a time and the read of this number fails.
pub fn failing_told(alloc: Global, bytes: &[u8], number: &str) -> Result<String, AllocError> {
    let call = whole_number(number.as_bytes()).unwrap_or(0);
    stream_told(alloc, bytes, 7, &[call])
}

/// What is told of the only request in these bytes.
pub fn only_told(
    alloc: Global,
    kind: &str,
    word: &str,
    bytes: &[u8],
) -> Result<String, AllocError> {
    let by_bytes = only_in_pieces_told(alloc, kind, word, bytes, 1)?;
    let at_once = only_in_pieces_told(alloc, kind, word, bytes, 65_536)?;
    same(alloc, by_bytes, at_once)
}

// The same where each read gives so many bytes.
fn only_in_pieces_told(
    alloc: Global,
    kind: &str,
    word: &str,
    bytes: &[u8],
    piece: usize,
) -> Result<String, AllocError>
    requires { 1 ≤ piece }
{
    match only_request(alloc, bytes, piece)? {
        Some(request) => request_told(alloc, kind, word, request),
        None => String::from_str(alloc, "not one request"),
    }
}

fn request_told(
    alloc: Global,
    kind: &str,
    word: &str,
    request: Request,
) -> Result<String, AllocError> {
    match kind {
        "fields" => fields(alloc, &request),
        "to" => target_told(alloc, word, request),
        _ => parts_told(alloc, &request),
    }
}

// The line and the parts of a request that goes to this target.
fn target_told(alloc: Global, target: &str, request: Request) -> Result<String, AllocError> {
    let target = Text::copy_of(alloc, target)?;
    let request = request.retarget(alloc, target)?;
    line_told(alloc, &request)
}

fn line_told(alloc: Global, request: &Request) -> Result<String, AllocError> {
    let mut told = String::new(alloc);
    add_line(&mut told, request)?;
    add_parts(&mut told, request)?;
    Ok(told)
}

fn parts_told(alloc: Global, request: &Request) -> Result<String, AllocError> {
    let count = request.fields.len();
    let mut told = format!(in alloc; "{count}|")?;
    add_parts(&mut told, request)?;
    Ok(told)
}

// The one request in the bytes, of which each read gives so many, where there is one alone.
fn only_request(alloc: Global, bytes: &[u8], piece: usize) -> Result<Option<Request>, AllocError>
    requires { 1 ≤ piece }
{
    let mut source = source_of(alloc, bytes, piece, &[])?;
    let mut rest = Rest::new(alloc);
    match read_request(alloc, &mut source, &mut rest) {
        Ok(Some(request)) if rest.is_empty() => Ok(Some(request)),
        Err(Failure::NoMemory) => Err(AllocError),
        _ => Ok(None),
    }
}

// What is told where each read gives one byte, if it is the same where one gives all.
fn same(alloc: Global, by_bytes: String, at_once: String) -> Result<String, AllocError> {
    if by_bytes.as_str() == at_once.as_str() {
        Ok(at_once)
    } else {
        String::from_str(alloc, "differs")
    }
}
