ghost use Rattle.std.specs.Prelude.{◌≡◌, ◌≢◌, ◌^◌, max, ◌+◌, ◌-◌, ◌<◌, ◌≤◌, Some, length, take};
ghost use Rattle.std.specs.Prelude.{drop, IfOk, IfSome, IfNone, OnOk, OnErr};
ghost use Rattle.std.specs.Io.KnownBytes.{IsAtEnd};
ghost use Rattle.edges.specs.Faults.{Rose};
ghost use Rattle.http_in.specs.Faults.{IfFault};
ghost use Rattle.http_in.specs.HeadEnd.{head_len, front_of};
ghost use Rattle.http_in.specs.Reading.{Moves, Reads, ReadsOn};
ghost use Rattle.http_in.specs.Request.{request_of};
ghost use Rattle.http_in.specs.Requests.{IsEnd};
ghost use Rattle.http_in.specs.Stopping.{StopsHead, StopsBody};

use crate::head::{Head, parse_head};
use crate::head_end::skip_pairs;
use crate::limits::{MAX_HEAD_BYTES, MAX_PIECE_BYTES, SESSION_ID_BYTES};
use crate::{HttpFault, Request, Rest};
use edges::Source;
use pg_text::{Bytes, Failure};
use std::alloc::{AllocError, Global};

/// Reads the next request, in whatever pieces the source gives its bytes, and takes it out of
/// `rest`. None means that the input ended between requests. After None, after a fault and where
/// memory ran out, all that was read stands in `rest`; where memory ran out the same request may be
/// asked for again.
pub fn read_request<S: Source>(
    alloc: Global,
    source: &mut S,
    rest: &mut Rest,
) -> Result<Option<Request>, Failure<HttpFault>>
    ensures answer { Reads (S.left source.old) (S.left source.new) rest.old rest.new result }
    ensures ahead { length rest.old < MAX_PIECE_BYTES → ReadsOn rest.new result }
    ensures cookie { IfOk result (λ found. IfSome found (λ request. length request.cookie ≤ SESSION_ID_BYTES)) }

    ensures later { S.faults source.old ≤ S.faults source.new }
    ensures read { IfFault result (λ fault. fault ≡ HttpFault.ReadFault →
        Rose (S.faults source.old) (S.faults source.new)) }
    ensures unfailing { S.unfailing source.old →
        IfFault result (λ fault. fault ≢ HttpFault.ReadFault) × S.unfailing source.new }
{
    let Some(len) = read_head(source, rest)? else {
        return Ok(None);
    };
    let head = parse_head(alloc, &rest.as_slice()[..len])?;
    let end = len + head.size;
    read_body(source, rest, end)?;
    Ok(Some(take_request(alloc, rest, len, end, head)?))
}

// Reads until a whole head stands at the front, and answers its length. None means that the input
// ended before it began.
fn read_head<S: Source>(
    source: &mut S,
    rest: &mut Rest,
) -> Result<Option<usize>, Failure<HttpFault>>
    ensures found { IfOk result (λ found. IfSome found (λ len. head_len (front_of rest.new) ≡ Some len)) }
    ensures within { IfOk result (λ found. IfSome found
        (λ len. (len ≤ MAX_HEAD_BYTES) × (len ≤ length rest.new))) }
    ensures ended { IfOk result (λ found. IfNone found (IsEnd rest.new × IsAtEnd (S.left source.new))) }
    ensures stopped { IfFault result (StopsHead (S.left source.new) rest.new) }
    ensures ahead { length rest.old < MAX_PIECE_BYTES →
        IfOk result (λ found. IfSome found (λ len. length rest.new < len + MAX_PIECE_BYTES)) }
    ensures too_large { length rest.old < MAX_PIECE_BYTES →
        IfFault result (λ fault. fault ≡ HttpFault.HeadTooLarge →
        length rest.new < MAX_HEAD_BYTES + MAX_PIECE_BYTES) }

    ensures bytes { Moves (S.left source.old) (S.left source.new) rest.old rest.new }
    ensures later { S.faults source.old ≤ S.faults source.new }
    ensures read { IfFault result (λ fault. fault ≡ HttpFault.ReadFault →
        Rose (S.faults source.old) (S.faults source.new)) }
    ensures unfailing { S.unfailing source.old →
        IfFault result (λ fault. fault ≢ HttpFault.ReadFault) × S.unfailing source.new }
{
    'fill: loop {
        if let Some(len) = rest.head_len() {
            return Ok(Some(len));
        }
        if rest.len() >= MAX_HEAD_BYTES {
            return Err(Failure::Fault(HttpFault::HeadTooLarge));
        }
        if !rest.fill(source)? {
            break;
        }
    }
    if skip_pairs(rest.as_slice()).is_empty() {
        Ok(None)
    } else {
        Err(Failure::Fault(HttpFault::CutOff))
    }
}

// Reads until so many bytes stand there.
fn read_body<S: Source>(
    source: &mut S,
    rest: &mut Rest,
    need: usize,
) -> Result<(), Failure<HttpFault>>
    ensures whole { OnOk result (need ≤ length rest.new) }
    ensures stopped { IfFault result (StopsBody need (S.left source.new) rest.new) }
    ensures ahead { length rest.new ≤ max (length rest.old) (need + (MAX_PIECE_BYTES - 1)) }

    ensures bytes { Moves (S.left source.old) (S.left source.new) rest.old rest.new }
    ensures later { S.faults source.old ≤ S.faults source.new }
    ensures read { IfFault result (λ fault. fault ≡ HttpFault.ReadFault →
        Rose (S.faults source.old) (S.faults source.new)) }
    ensures unfailing { S.unfailing source.old →
        IfFault result (λ fault. fault ≢ HttpFault.ReadFault) × S.unfailing source.new }
{
    'fill: while rest.len() < need {
        if !rest.fill(source)? {
            return Err(Failure::Fault(HttpFault::CutOff));
        }
    }
    Ok(())
}

// The request at the front, whose body stands from `len` to `end`; it is taken away. Where memory
// runs out nothing is.
fn take_request(
    alloc: Global,
    rest: &mut Rest,
    len: usize,
    end: usize,
    head: Head,
) -> Result<Request, AllocError>
    requires whole { end ≤ length rest.old }
    requires ends { end ≡ len + head.size }
    ensures request { IfOk result (λ request. request ≡ request_of head.method head.target head.fields
        (take head.size (drop len rest.old))) }
    ensures cookie { IfOk result (λ request. length request.cookie ≤ SESSION_ID_BYTES) }
    ensures after { OnOk result (rest.new ≡ drop (len + head.size) rest.old) }
    ensures stays { OnErr result (rest.new ≡ rest.old) }
{
    let body = Bytes::copy_of(alloc, &rest.as_slice()[len..end])?;
    let request = Request::of(alloc, head.method, head.target, head.fields, body)?;
    rest.drop_front(end);
    Ok(request)
}
