use crate::recorded::record_told;
use std::alloc::{AllocError, Global};
use std::test::Fail;

// A page that counts in a session is put, published and asked for.
const FIRST: &str =
    "PUT /_editor/files/s.jsp HTTP/1.1\r\nHost: x\r\nContent-Length: 101\r\n\r\n<%@ taglib prefix=\"c\" uri=\"jakarta.tags.core\" %><c:set var=\"n\" value=\"${n + 1}\" scope=\"session\"/>${n}POST /_editor/publish HTTP/1.1\r\nHost: x\r\n\r\nGET /s.jsp HTTP/1.1\r\nHost: x\r\n\r\n";

// It is asked for with its session, and without.
const SECOND: &str =
    "GET /s.jsp HTTP/1.1\r\nHost: x\r\nCookie: JSESSIONID=0000000000000000ade0b876903df1a0e56a5d4028bd8653\r\n\r\nGET /s.jsp HTTP/1.1\r\nHost: x\r\n\r\n";

// What the second connection is answered.
const ANSWERS: &str =
    "HTTP/1.1 200 OK\r\nContent-Type: text/html;charset=UTF-8\r\nContent-Length: 1\r\n\r\n2HTTP/1.1 200 OK\r\nContent-Type: text/html;charset=UTF-8\r\nSet-Cookie: JSESSIONID=0000000000000001b819d2bd1aed8da0ccef36a8c70d778b; Path=/; HttpOnly\r\nContent-Length: 1\r\n\r\n1";

// The list of these connections.
fn list_of(alloc: Global, texts: &[&str]) -> Result<Vec<u8>, AllocError> {
    let mut list = Vec::new(alloc);
    for text in texts {
        let size = text.len();
        let line = format!(in alloc; "{size}\n")?;
        list.extend_from_slice(line.as_bytes())?;
        list.extend_from_slice(text.as_bytes())?;
    }
    Ok(list)
}

// A session that was made on one connection is there on the next one, and so are the ids that come
// after it.
#[test]
fn the_next_connection_finds_the_session(rt: HostRuntime) -> Result<(), Fail> {
    let list = list_of(rt.alloc(), &[FIRST, SECOND])?;
    let (status, text) = record_told(rt.alloc(), &list, 7, &[0], &[])?;
    let mut end = ANSWERS.as_bytes().to_vec(rt.alloc())?;
    end.push(0)?;
    let marks = text
        .windows(8)
        .filter(|bytes| *bytes == b"PGJRNL1\n".as_slice());
    let journals = marks.count();
    assert!(rt; (status, journals) == (0, 2) && text.ends_with(&end));
    Ok(())
}
