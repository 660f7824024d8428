// Bodies, and calls behind reads that fail.
ghost use Rattle.std.specs.Prelude.{◌≤◌, ◌≢◌};
ghost use Rattle.http_in.specs.Faults.{IfFault};

use edges::MemSource;
use http_in::{HttpFault, Request, Rest, read_request};
use pg_text::Failure;
use std::alloc::{AllocError, Global};

/// How many bytes the body of the first request has, in small pieces and in large ones.
pub fn sizes_told(alloc: Global, bytes: &[u8]) -> Result<String, AllocError> {
    let small = body_size(first_request(alloc, bytes.to_vec(alloc)?, 4_096));
    let large = body_size(first_request(alloc, bytes.to_vec(alloc)?, 65_536));
    match (small, large) {
        (Some(small), Some(large)) => format!(in alloc; "{small} {large}"),
        _ => String::from_str(alloc, "no request"),
    }
}

// The first request of bytes in memory: no read fails, as a caller concludes without a look at the
// answer.
fn first_request(
    alloc: Global,
    bytes: Vec<u8>,
    piece: usize,
) -> Result<Option<Request>, Failure<HttpFault>>
    requires { 1 ≤ piece }
    ensures { IfFault result (λ fault. fault ≢ HttpFault.ReadFault) }
{
    let mut source = MemSource::new(bytes, piece, Vec::new(alloc));
    read_request(alloc, &mut source, &mut Rest::new(alloc))
}

// The size of the body that was read.
fn body_size(request: Result<Option<Request>, Failure<HttpFault>>) -> Option<usize> {
    match request {
        Ok(Some(request)) => Some(request.body.len()),
        _ => None,
    }
}

/// What four calls tell of a request whose bytes come one by one, where a read fails in the head,
/// one behind it, and one in the body.
pub fn calls_told(alloc: Global, bytes: &[u8]) -> Result<String, AllocError> {
    let fails = vec![in alloc; 20, 48, 50]?;
    let mut source = MemSource::new(bytes.to_vec(alloc)?, 1, fails);
    let mut told = String::new(alloc);
    add_calls(alloc, &mut told, &mut source)?;
    Ok(told)
}

// Adds what each call tells.
fn add_calls(alloc: Global, told: &mut String, source: &mut MemSource) -> Result<(), AllocError> {
    let mut rest = Rest::new(alloc);
    for _ in 0..4 {
        add_call(alloc, told, source, &mut rest)?;
    }
    Ok(())
}

fn add_call(
    alloc: Global,
    told: &mut String,
    source: &mut MemSource,
    rest: &mut Rest,
) -> Result<(), AllocError> {
    match read_request(alloc, source, rest) {
        Ok(Some(request)) => {
            told.push_str(str::from_utf8(request.body.as_slice()).unwrap_or("?"))
        }
        Err(Failure::Fault(HttpFault::ReadFault)) => told.push_str("ReadFault "),
        _ => told.push_str("other "),
    }
}
