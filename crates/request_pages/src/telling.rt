// Replies of which nothing is committed before they are written.
ghost use Rattle.std.specs.Prelude.{◌≡◌, ◌++◌, Some, None, codes, IfOk};
ghost use Rattle.http_out.specs.Head.{plain_type};
ghost use Rattle.page_meaning.specs.Faults.{page_fault_line, run_fault_line};
ghost use Rattle.page_meaning.specs.Response.{file_type};
ghost use Rattle.run_world.specs.Seats.{raise_of};

use crate::body::Body;
use crate::reply::Reply;
use fault_line::page_fault_line;
use http_out::{ContentType, PLAIN_TYPE, Status};
use pg_text::{PageFault, Path, Text};
use run_values::run_fault_line;
use run_world::Raise;
use site_words::has_suffix;
use std::alloc::{AllocError, Global};

// A plain answer of one line.
fn plain(alloc: Global, status: Status, line: &[u8]) -> Result<Reply, AllocError>
    ensures { IfOk result (λ told. told ≡ Reply.Whole status (Some plain_type) None (line.now ++ codes "\n")) }
{
    let mut body = Vec::from_slice(alloc, line)?;
    body.extend_from_slice(b"\n")?;
    Ok(Reply::Whole {
        status,
        content_type: Some(ContentType::known(PLAIN_TYPE)),
        location: None,
        body: Body::made(body),
    })
}

/// The answer where no file is found.
pub(crate) fn not_found(alloc: Global) -> Result<Reply, AllocError>
    ensures { IfOk result (λ told. told ≡ Reply.Whole Status.NotFound (Some plain_type) None
        (codes "NotFound" ++ codes "\n")) }
{
    plain(alloc, Status::NotFound, b"NotFound")
}

/// A file that is no page, as it is.
pub(crate) fn file(status: Status, path: &Path, text: &Text) -> Result<Reply, AllocError>
    ensures { IfOk result (λ told. told ≡ Reply.Whole status (Some (file_type path.now)) None text.now) }
{
    Ok(Reply::Whole {
        status,
        content_type: Some(ContentType::known(file_type(path))),
        location: None,
        body: Body::file(text)?,
    })
}

// The content type of a file by the suffix of its path.
fn file_type(path: &Path) -> &'static str
    ensures { result.now ≡ file_type path.now }
{
    let bytes = path.as_bytes();
    if has_suffix(bytes, b".html") {
        "text/html;charset=UTF-8"
    } else if has_suffix(bytes, b".css") {
        "text/css;charset=UTF-8"
    } else if has_suffix(bytes, b".js") {
        "text/javascript;charset=UTF-8"
    } else if has_suffix(bytes, b".json") {
        "application/json;charset=UTF-8"
    } else {
        PLAIN_TYPE
    }
}

/// The line of a page's fault.
pub(crate) fn page_fault(alloc: Global, fault: &PageFault) -> Result<Reply, AllocError>
    ensures { IfOk result (λ told. told ≡ Reply.Whole Status.InternalServerError (Some plain_type) None
        (page_fault_line fault.now ++ codes "\n")) }
{
    let line = page_fault_line(alloc, fault)?;
    plain(alloc, Status::InternalServerError, &line)
}

/// The line of a fault that a run raised.
pub(crate) fn run_fault(alloc: Global, raise: &Raise) -> Result<Reply, AllocError>
    ensures { IfOk result (λ told. told ≡ Reply.Whole Status.InternalServerError (Some plain_type) None
        (run_fault_line (raise_of raise.now) ++ codes "\n")) }
{
    let line = run_fault_line(alloc, raise.fault, &raise.place)?;
    plain(alloc, Status::InternalServerError, line.as_bytes())
}
