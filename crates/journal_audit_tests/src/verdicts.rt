use edges::{MemSink, MemSource};
use journal_audit::audit_words;
use std::alloc::{AllocError, Global};
use std::test::Fail;

// The journal of a connection without a byte.
const EMPTY: &[&[u8]] = &[
    // the mark
    b"PGJRNL1\n",
    // the seed
    b"\0\0\0\0\0\0\0\0\0\0\0\0\0\0\0\0\0\0\0\0\0\0\0\0\0\0\0\0\0\0\0\0",
    // limit, passes, idle time, version, Begins, Freshes, moment
    b"\0\0\0\0\x80\0\0\0\0\0\0\0\0\0\0\x01\0\0\0\0\0\0\x07\x08\0\0\0\0\0\0\0\0\0\0\0\0\0\0\0\0",
    b"\0\0\0\0\0\0\0\0\0\0\0\0\0\0\0\0",
    // attributes, files, sessions
    b"\0\0\0\0\0\0\0\0\0\0\0\0\0\0\0\0\0\0\0\0\0\0\0\0",
    // one entry: a Roll of pass 0
    b"\0\0\0\0\0\0\0\x01\0\n",
    // a talk: bytes, moments, answers, end
    b"\x01\0\0\0\0\0\0\0\0\0\0\0\0\0\0\0\0\0\0\0\0\0\0\0\0\0",
];

// The journal of a connection that publishes a page and asks for it.
const FIRST: &[&[u8]] = &[
    // the mark
    b"PGJRNL1\n",
    // the seed
    b"\0\0\0\0\0\0\0\0\0\0\0\0\0\0\0\0\0\0\0\0\0\0\0\0\0\0\0\0\0\0\0\0",
    // limit, passes, idle time, version, Begins, Freshes, moment
    b"\0\0\0\0\x80\0\0\0\0\0\0\0\0\0\0\x01\0\0\0\0\0\0\x07\x08\0\0\0\0\0\0\0\0\0\0\0\0\0\0\0\0",
    b"\0\0\0\0\0\0\0\0\0\0\0\0\0\0\0\0",
    // attributes, files, sessions
    b"\0\0\0\0\0\0\0\0\0\0\0\0\0\0\0\0\0\0\0\0\0\0\0\0",
    // six entries
    b"\0\0\0\0\0\0\0\x06\0\x01\0\0\0\0\0\0\0\0\x01\0\0\0\0\0\0\0\0\x06/a.jsp\0\0\0\0\0\0\0)<%@",
    b" page session=\"false\" %>Hi ${param.n}!\0\0\0\0\0\0\0\x01\0\0\0\0\0\0\0\0\0\x02\0\0\0\0",
    b"\0\0\0\0\0\0\0\0\0\0\x03\xe8\0\0\0\0\0\0\0\0\0\0\0\0\0\0\0\x01\0\0\x05\0\0\0\0\0\0\0\0\0",
    b"\0\0\0\0\0\0\x06/a.jsp\0\0\x06\0\0\0\0\0\0\0\0\0\0\0\0\0\0\0\x06/a.jsp\x01\0\x07\0\0\0\0",
    b"\0\0\0\0\0\0\0\0\0\0\0\0\0\n",
    // a talk: bytes and moments
    b"\x01\0\0\0\0\0\0\0\xbbPUT /_editor/files/a.jsp HTTP/1.1\r\nHost: x\r\nContent-Length: 41",
    b"\r\n\r\n<%@ page session=\"false\" %>Hi ${param.n}!POST /_editor/publish HTTP/1.1\r\nHos",
    b"t: x\r\n\r\nGET /a.jsp?n=Bo HTTP/1.1\r\nHost: x\r\n\r\n\0\0\0\0\0\0\0\x01\0\0\0\0\0\0",
    b"\x03\xe8\0\0\0\0\0\0\x01\x02",
    // answers, end
    b"HTTP/1.1 200 OK\r\nContent-Type: text/plain;charset=UTF-8\r\nContent-Length: 8\r\n\r\ndr",
    b"aft 1\nHTTP/1.1 200 OK\r\nContent-Type: text/plain;charset=UTF-8\r\nContent-Length: 10\r",
    b"\n\r\nversion 1\nHTTP/1.1 200 OK\r\nContent-Type: text/html;charset=UTF-8\r\nContent-Len",
    b"gth: 6\r\n\r\nHi Bo!\0",
];

// The first journal with one byte changed: its place, the new one, and the line that is due.
const CHANGED: [(usize, u8, &str); 12] = [
    // the mark
    (0, 0, "notjournal 0\n"),
    // passes
    (55, 0, "no 0 opening\n"),
    // the Publish's pass
    (128, 1, "no 0 entry 0\n"),
    // its version
    (210, 2, "no 0 entry 0\n"),
    // the Fetch's reply
    (278, 1, "no 0 entry 2\n"),
    // the Offer's reply
    (303, 0, "no 0 entry 3\n"),
    // the Roll's pass
    (322, 1, "no 0 entry 5\n"),
    // the Begin's moment
    (236, 233, "no 0 talk\n"),
    // the talk's moment
    (535, 233, "no 0 talk\n"),
    // its answers
    (800, b'a', "no 0 talk\n"),
    // its end
    (802, 1, "no 0 talk\n"),
    // passes
    (55, 2, "no 0 talk\n"),
];

// Parts of journals, how many bytes of them stand, the status that is due, and the line.
const ROWS: [(&[&[&[u8]]], usize, u8, &str); 5] = [
    (&[], 0, 0, "yes 0 0\n"),
    (&[EMPTY, EMPTY], 1_000, 0, "yes 2 2\n"),
    (&[EMPTY, FIRST], 1_000, 0, "yes 2 7\n"),
    // another opening
    (&[FIRST, EMPTY], 1_000, 6, "no 1 opening\n"),
    // a journal that is cut off
    (&[EMPTY], 155, 6, "notjournal 0\n"),
];

// The first bytes of these journals, so many where there are as many.
fn joined(alloc: Global, journals: &[&[&[u8]]], size: usize) -> Result<Vec<u8>, AllocError> {
    let mut bytes = Vec::new(alloc);
    for journal in journals {
        for part in *journal {
            bytes.extend_from_slice(part)?;
        }
    }
    bytes.truncate(size);
    Ok(bytes)
}

// Whether the program has this status for these bytes, and writes this line.
fn is_told(alloc: Global, bytes: Vec<u8>, status: u8, line: &str) -> bool {
    let mut source = MemSource::new(bytes, 4_096, Vec::new(alloc));
    let mut sink = MemSink::new(alloc, Vec::new(alloc));
    let found = audit_words(alloc, &[], &mut source, &mut sink);
    found == status && sink.taken() == line.as_bytes()
}

#[test]
fn journals_are_judged(rt: HostRuntime) -> Result<(), Fail> {
    for &(journals, size, status, line) in &ROWS {
        let bytes = joined(rt.alloc(), journals, size)?;
        assert!(rt; is_told(rt.alloc(), bytes, status, line));
    }
    Ok(())
}

#[test]
fn one_byte_is_told(rt: HostRuntime) -> Result<(), Fail> {
    for &(place, byte, line) in &CHANGED {
        let mut bytes = joined(rt.alloc(), &[FIRST], 1_000)?;
        if place < bytes.len() {
            bytes[place] = byte;
        }
        assert!(rt; is_told(rt.alloc(), bytes, 6, line));
    }
    Ok(())
}
