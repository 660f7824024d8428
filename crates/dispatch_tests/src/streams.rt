ghost use Rattle.std.specs.Prelude.{◌≡◌, ◌<◌};
ghost use Rattle.pass_course.specs.Course.{IsIdle};

use crate::asking::ask;
use crate::opening::{AMPLE, opened};
use crate::preceded::Preceded;
use crate::watching::{Counted, Watching};
use compiled_pages::Made;
use edges::{MemClock, MemSink, Steps, Unseen};
use row_text::written_out;
use site_words::Port;
use std::alloc::Global;
use std::cell::Cell;
use std::marker::Brand;
use std::sync::ledger::{Blank, Ledger};
use std::test::Fail;

// A request of a page of these files, by its method.
#[derive(Clone, Copy)]
struct Visit<'a> {
    method: &'a str,
    files: &'a [(&'a str, &'a str)],
}

// What a sink had taken when a page first asked a step of a port that notes it, a bar, and what it
// took in all.
fn watched<N: Ledger, P: Port<Made>>(
    alloc: Global,
    blank: Blank,
    method: &str,
    port: &mut Preceded<P, Watching<'_>>,
    sink: &mut Counted<'_>,
) -> Result<String, Fail>
    requires name { blank.name ≡ N.name }
    requires parts { blank.parts ≡ N.parts }
    requires some { 0 < N.parts }
    requires idle { IsIdle (P.opening port.old.port) (P.pass port.old.port) (P.seen port.old.port) }
{
    let mut clock = MemClock::new(vec![in alloc; 0]?);
    let mut steps = Steps::<Unseen<N>>::unseen(blank);
    let asked = (method, "/a.jsp", "");
    ask(alloc, port, asked, sink, &mut clock, &mut steps)?;
    let Some(noted) = port.before.noted else {
        return Err(Fail::new("no step was asked"));
    };
    let all = sink.inner.taken();
    let first = &all[..all.len().min(noted as usize)];
    let first = str::from_utf8(first).unwrap_or("no text");
    let all = str::from_utf8(all).unwrap_or("no text");
    Ok(format!(in alloc; "{first}|{all}")?)
}

// The same of a site of the files.
fn streamed<N: Ledger>(alloc: Global, blank: Blank, visit: &Visit<'_>) -> Result<String, Fail>
    requires name { blank.name ≡ N.name }
    requires parts { blank.parts ≡ N.parts }
    requires some { 0 < N.parts }
{
    let port = opened(alloc, visit.files, AMPLE)?;
    let count = Cell::new(0);
    let before = Watching {
        count: &count,
        noted: None,
    };
    let mut port = Preceded { port, before };
    let mut sink = Counted {
        inner: MemSink::new(alloc, Vec::new(alloc)),
        count: &count,
    };
    watched::<N, _>(alloc, blank, visit.method, &mut port, &mut sink)
}

// The same under the only name of a ledger.
fn visit_told(alloc: Global, visit: &Visit<'_>) -> Result<String, Fail> {
    streamed::<Brand>(alloc, Blank::new(1), visit)
}

// The head of a chunked response.
const HEAD: &str =
    "HTTP/1.1 200 OK\r\nContent-Type: text/html;charset=UTF-8\r\nTransfer-Encoding: chunked\r\n\r\n";

// Requests of pages, and what is written before the first step, and in all. In writing `§` is the
// head, and `«9 x»` is x nine times.
const PAGES: [(&str, &str, &str); 4] = [
    (
        "GET",
        "<%@ page session=\"false\" buffer=\"none\" %>abc${q}d",
        "§3\r\nabc\r\n|§3\r\nabc\r\n1\r\nd\r\n0\r\n\r\n",
    ),
    (
        "GET",
        "<%@ page session=\"false\" %>ab<jsp:include page=\"/t.txt\" flush=\"true\"/>${q}d",
        "§2\r\nab\r\n|§2\r\nab\r\n2\r\ntd\r\n0\r\n\r\n",
    ),
    (
        "HEAD",
        "<%@ page session=\"false\" buffer=\"none\" %>abc${q}d",
        "§|§",
    ),
    // A buffer that is full.
    (
        "GET",
        "<%@ page session=\"false\" buffer=\"1kb\" %>«1024 a»a${q}",
        "§400\r\n«1024 a»\r\n|§400\r\n«1024 a»\r\n1\r\na\r\n0\r\n\r\n",
    ),
];

#[test]
fn what_is_committed_goes_out_at_once(rt: HostRuntime) -> Result<(), Fail> {
    for &(method, page, wanted) in &PAGES {
        let page = written_out(rt.alloc(), page, &[])?;
        let wanted = written_out(rt.alloc(), wanted, &[("§", HEAD)])?;
        let files = [("/a.jsp", page.as_str()), ("/t.txt", "t")];
        let visit = Visit {
            method,
            files: &files,
        };
        assert_eq!(rt; visit_told(rt.alloc(), &visit)?.as_str(), wanted.as_str());
    }
    Ok(())
}
