use crate::opening::opened;
use crate::serving::{Said, served, wires_of};
use crate::wires::Wire;
use std::alloc::Global;
use std::sync::Wait;
use std::sync::atomic::{AtomicU64, Ordering};
use std::test::Fail;
use std::thread::Threads;

const FILES: [(&str, &str); 1] = [("/hi.jsp", "<%@ page session=\"false\" %>Hi ${param.who}!")];

const ANN: &str = "GET /hi.jsp?who=Ann HTTP/1.1\r\nHost: x\r\n\r\n";

const BOB: &str = "GET /hi.jsp?who=Bob HTTP/1.1\r\nHost: x\r\n\r\n";

const PUBLISH: &str = "POST /_editor/publish HTTP/1.1\r\nHost: x\r\n\r\n";

const DRAFT: &str =
    "PUT /_editor/files/hi.jsp HTTP/1.1\r\nHost: x\r\nContent-Length: 30\r\n\r\n<%@ page session=\"false\" %>Bye\
GET /hi.jsp HTTP/1.1\r\nHost: x\r\n\r\n";

const TO_ANN: &str =
    "HTTP/1.1 200 OK\r\nContent-Type: text/html;charset=UTF-8\r\nContent-Length: 7\r\n\r\nHi Ann!";

const TO_BOB: &str =
    "HTTP/1.1 200 OK\r\nContent-Type: text/html;charset=UTF-8\r\nContent-Length: 7\r\n\r\nHi Bob!";

const SHOWN: &str =
    "HTTP/1.1 200 OK\r\nContent-Type: text/plain;charset=UTF-8\r\nContent-Length: 8\r\n\r\ndraft 1\n\
HTTP/1.1 200 OK\r\nContent-Type: text/html;charset=UTF-8\r\nContent-Length: 3\r\n\r\nBye";

const PUBLISHED: &str =
    "HTTP/1.1 200 OK\r\nContent-Type: text/plain;charset=UTF-8\r\nContent-Length: 10\r\n\r\nversion 1\n";

const NOT_FOUND: &str =
    "HTTP/1.1 404 Not Found\r\nContent-Type: text/plain;charset=UTF-8\r\nContent-Length: 9\r\n\r\nNotFound\n";

// What is said on the connections of one round, and what is answered on each.
#[derive(Clone, Copy)]
struct Row {
    said: Said<'static>,
    answers: &'static [&'static str],
}

// In the first round a request is held: its first operation waits at the gate until the other
// request has its answer. So two are under way at once: with one thread for all connections, or one
// lock held over a request, nobody would be answered until the gate gives up, which is a failure.
// In the second, readers can't edit. In the third, what is seen on the port of previews isn't seen
// on that of readers.
const ROWS: [Row; 3] = [
    Row {
        said: Said {
            readers: &[ANN, BOB],
            editors: &[],
            previews: &[],
            is_held: true,
        },
        answers: &[TO_ANN, TO_BOB],
    },
    Row {
        said: Said {
            readers: &[PUBLISH],
            editors: &[PUBLISH],
            previews: &[],
            is_held: false,
        },
        answers: &[NOT_FOUND, PUBLISHED],
    },
    Row {
        said: Said {
            readers: &[ANN],
            editors: &[],
            previews: &[DRAFT],
            is_held: false,
        },
        answers: &[TO_ANN, SHOWN],
    },
];

// Whether each connection was answered so, and with nothing else.
fn are_answered<R: Wait>(rt: &R, wires: &[Wire], wanted: &[&str]) -> bool {
    for (wire, text) in wires.iter().zip(wanted) {
        if !wire.has_taken(rt, text.as_bytes()) {
            return false;
        }
    }
    wires.len() == wanted.len()
}

// Serves these connections on a new site.
fn serve_new<R: Threads + Wait + Sync>(
    rt: &R,
    alloc: Global,
    said: Said<'_>,
    wires: &[Wire],
    gave_up: &AtomicU64,
) -> Result<(), Fail> {
    let site = opened(alloc, &FILES, 0, 3)?;
    served(rt, alloc, site, said, wires, gave_up)?;
    Ok(())
}

// Whether the connections of a row are answered as it says, and the gate doesn't give up.
fn is_answered<R: Threads + Wait + Sync>(rt: &R, alloc: Global, row: &Row) -> Result<bool, Fail> {
    let wires = wires_of(alloc, row.said)?;
    let gave_up = AtomicU64::new(0);
    serve_new(rt, alloc, row.said, &wires, &gave_up)?;
    let gave_up = gave_up.load(Ordering::SeqCst) > 0;
    Ok(!gave_up && are_answered(rt, &wires, row.answers))
}

#[test]
fn connections_are_answered(rt: HostRuntime) -> Result<(), Fail> {
    for row in &ROWS {
        assert!(rt; is_answered(&rt, rt.alloc(), row)?);
    }
    Ok(())
}
