use crate::parts::Parts;
use conversation::{Ended, walk};
use edges::{MemSink, MemSource};
use http_in::HttpFault;
use row_text::written_out;
use std::alloc::{AllocError, Global};
use std::test::Fail;

// Requests in writing, the reads and the writes that fail, how the conversation ends, and what it
// writes. In writing `§` is the rest of a request behind its target, `±` stands between a status
// and the length of a text, `¶` ends a line, and `«9 x»` is x nine times.
#[derive(Clone, Copy)]
struct Row {
    requests: &'static str,
    read_fails: &'static [u64],
    write_fails: &'static [u64],
    ended: Ended,
    text: &'static str,
}

const SIGNS: [(&str, &str); 3] = [
    ("§", " HTTP/1.1¶Host: h¶¶"),
    (
        "±",
        "¶Content-Type: text/plain;charset=UTF-8¶Content-Length: ",
    ),
    ("¶", "\r\n"),
];

const ROWS: [Row; 17] = [
    // A response ends in the middle.
    Row {
        requests: "GET /a§GET /b§GET /c§",
        read_fails: &[],
        write_fails: &[],
        ended: Ended::Done,
        text: "</a></b></c>",
    },
    Row {
        requests: "GET /a§GET /broken§GET /c§",
        read_fails: &[],
        write_fails: &[],
        ended: Ended::Done,
        text: "</a></broken",
    },
    Row {
        requests: "GET /a§GET /starved§GET /c§",
        read_fails: &[],
        write_fails: &[],
        ended: Ended::NoMemory,
        text: "</a></starved",
    },
    Row {
        requests: "GET /a§GET /b§GET /c§",
        read_fails: &[],
        write_fails: &[3],
        ended: Ended::WriteFault,
        text: "</a>",
    },
    Row {
        requests: "GET /a§GET /b§GET /c§",
        read_fails: &[],
        write_fails: &[4],
        ended: Ended::WriteFault,
        text: "</a><",
    },
    Row {
        requests: "GET /a§GET /b§GET /c§",
        read_fails: &[],
        write_fails: &[5],
        ended: Ended::WriteFault,
        text: "</a></b",
    },
    Row {
        requests: "GET /a§GET /broken§GET /c§",
        read_fails: &[],
        write_fails: &[4],
        ended: Ended::WriteFault,
        text: "</a><",
    },
    Row {
        requests: "GET /a§GET /starved§GET /c§",
        read_fails: &[],
        write_fails: &[4],
        ended: Ended::NoMemory,
        text: "</a><",
    },
    // The first read gives two requests and the front of the third.
    Row {
        requests: "GET /a§GET /b§GET /c§",
        read_fails: &[1],
        write_fails: &[],
        ended: Ended::ReadFault,
        text: "</a></b>",
    },
    // A fault is answered and ends the conversation.
    Row {
        requests: "GET /a§GET / HTTP/1.0¶Host: h¶¶",
        read_fails: &[],
        write_fails: &[],
        ended: Ended::Refused(HttpFault::WrongVersion),
        text: "</a>HTTP/1.1 505 HTTP Version Not Supported±13¶Connection: close¶¶WrongVersion\n",
    },
    Row {
        requests: "GET /a§GET / HTTP/1.1¶¶",
        read_fails: &[],
        write_fails: &[],
        ended: Ended::Refused(HttpFault::BadHead),
        text: "</a>HTTP/1.1 400 Bad Request±8¶Connection: close¶¶BadHead\n",
    },
    Row {
        requests: "GET /a§GET / HTTP/1.1¶Host: h¶Transfer-Encoding: chunked¶¶",
        read_fails: &[],
        write_fails: &[],
        ended: Ended::Refused(HttpFault::ChunkedRequest),
        text: "</a>HTTP/1.1 501 Not Implemented±15¶Connection: close¶¶ChunkedRequest\n",
    },
    Row {
        requests: "GET /a§GET / HTTP/1.1¶Host: h¶Content-Length: 1x¶¶",
        read_fails: &[],
        write_fails: &[],
        ended: Ended::Refused(HttpFault::BadLength),
        text: "</a>HTTP/1.1 400 Bad Request±10¶Connection: close¶¶BadLength\n",
    },
    Row {
        requests: "GET /a§GET / HTTP/1.1¶Host: h¶Content-Length: 2097153¶¶",
        read_fails: &[],
        write_fails: &[],
        ended: Ended::Refused(HttpFault::BodyTooLarge),
        text: "</a>HTTP/1.1 413 Content Too Large±13¶Connection: close¶¶BodyTooLarge\n",
    },
    Row {
        requests: "GET /a§GET / HTTP/1.1¶Host",
        read_fails: &[],
        write_fails: &[],
        ended: Ended::Refused(HttpFault::CutOff),
        text: "</a>",
    },
    Row {
        requests: "«1024 GET / HTTP/1.1¶X: »",
        read_fails: &[],
        write_fails: &[],
        ended: Ended::Refused(HttpFault::HeadTooLarge),
        text: "HTTP/1.1 431 Request Header Fields Too Large±13¶Connection: close¶¶HeadTooLarge\n",
    },
    // The last request closes the connection; one more stands behind it.
    Row {
        requests: "«65537 GET /§»",
        read_fails: &[],
        write_fails: &[],
        ended: Ended::Done,
        text: "«65536 </>»",
    },
];

// How a conversation over this input ends. The source fails at these reads.
fn walked(
    alloc: Global,
    input: &str,
    fails: &[u64],
    sink: &mut MemSink,
) -> Result<Ended, AllocError> {
    let mut source = MemSource::new(input.as_bytes().to_vec(alloc)?, 64, fails.to_vec(alloc)?);
    let (mut port, mut clock, mut count) = (0, 0, 0);
    Ok(walk(
        alloc,
        &mut Parts,
        &mut port,
        &mut clock,
        &mut count,
        &mut source,
        sink,
    ))
}

// Whether the conversation of a row ends as it is due, and writes that and nothing else.
fn is_due(alloc: Global, row: &Row) -> Result<bool, AllocError> {
    let input = written_out(alloc, row.requests, &SIGNS)?;
    let text = written_out(alloc, row.text, &SIGNS)?;
    let mut sink = MemSink::new(alloc, row.write_fails.to_vec(alloc)?);
    let ended = walked(alloc, input.as_str(), row.read_fails, &mut sink)?;
    Ok(ended == row.ended && sink.taken() == text.as_bytes())
}

#[test]
fn conversations_end_as_they_are_due(rt: HostRuntime) -> Result<(), Fail> {
    for row in &ROWS {
        assert!(rt; is_due(rt.alloc(), row)?);
    }
    Ok(())
}
