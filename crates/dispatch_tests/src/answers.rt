use crate::answering::{Course, come};
use crate::asking::Asked;
use crate::opening::AMPLE;
use std::test::Fail;

// Requests that are answered, also where one fails; one more than the journal has room for;
// requests whose answers are not taken; and a session that ends once it was idle too long. Behind
// each is a line for each answer: the outcome, what is read for its pages, and the text; then the
// moment at which a next request begins, and what all add to the history.
const ROWS: [(Course<'static>, &str); 4] = [
    (
        Course {
            files: &FILES,
            limit: AMPLE,
            moments: &[0, 1, 2, 3, 4, 5, 6, 7, 8, 9, 10],
            asked: &ASKED,
            fails: &[],
        },
        ANSWERS,
    ),
    (
        Course {
            files: &[],
            limit: 4_325_376,
            moments: &[0, 1, 2, 3, 4, 5],
            asked: &TO_FULL,
            fails: &[],
        },
        FULL,
    ),
    (
        Course {
            files: &FILES,
            limit: AMPLE,
            moments: &[0, 1, 2, 3, 4, 5],
            asked: &NOT_TAKEN,
            fails: &[0],
        },
        "WriteFault 73 \nWriteFault 33 \nWriteFault 0 \n3 BFOEBFOAEBE",
    ),
    (
        Course {
            files: &COUNTING,
            limit: AMPLE,
            moments: &[0, 1_800, 3_601, 3_602],
            asked: &[
                ("GET", "/s.jsp", ""),
                ("GET", "/s.jsp", FIRST),
                ("GET", "/s.jsp", FIRST),
            ],
            fails: &[],
        },
        COUNTED,
    ),
];

// Pages in files, by what comes of them.
const FILES: [(&str, &str); 7] = [
    (
        "/a.jsp",
        "<%@ page session=\"false\" errorPage=\"/err.jsp\" %>abc${1 mod 0}",
    ),
    (
        "/err.jsp",
        "<%@ page session=\"false\" isErrorPage=\"true\" %>${pageContext.exception.code}",
    ),
    (
        "/b.jsp",
        "<%@ page session=\"false\" buffer=\"none\" errorPage=\"/err.jsp\" %>a${1 mod 0}",
    ),
    ("/h.jsp", "<%@ page session=\"false\" %>${q}Hi"),
    (
        "/i.jsp",
        "<%@ page session=\"false\" %><%@ include file=\"/t.txt\" %>",
    ),
    ("/t.txt", "text"),
    ("/f.jsp", "<%@ include file=\"/none.jspf\" %>"),
];

// Requests one after the other. The last one doesn't begin, so it takes no moment.
const ASKED: [Asked<'static>; 10] = [
    ("GET", "/a.jsp", ""),
    ("GET", "/a.jsp", ""),
    ("GET", "/b.jsp", ""),
    ("HEAD", "/h.jsp", ""),
    ("POST", "/h.jsp", ""),
    ("GET", "/i.jsp", ""),
    ("GET", "/f.jsp", ""),
    ("GET", "/f.jsp", ""),
    ("GET", "/t.txt", ""),
    ("PATCH", "/a.jsp", ""),
];

const ANSWERS: &str = "\
    Whole 136 HTTP/1.1 500 Internal Server Error\r\nContent-Type: text/html;charset=UTF-8\r\nContent-Length: 2\r\n\r\nX3\n\
    Whole 0 HTTP/1.1 500 Internal Server Error\r\nContent-Type: text/html;charset=UTF-8\r\nContent-Length: 2\r\n\r\nX3\n\
    Broken 73 HTTP/1.1 200 OK\r\nContent-Type: text/html;charset=UTF-8\r\nTransfer-Encoding: chunked\r\n\r\n1\r\na\r\n\n\
    Whole 33 HTTP/1.1 200 OK\r\nContent-Type: text/html;charset=UTF-8\r\nContent-Length: 2\r\n\r\n\n\
    Whole 0 HTTP/1.1 200 OK\r\nContent-Type: text/html;charset=UTF-8\r\nContent-Length: 2\r\n\r\nHi\n\
    Whole 59 HTTP/1.1 200 OK\r\nContent-Type: text/html;charset=UTF-8\r\nContent-Length: 4\r\n\r\ntext\n\
    Whole 32 HTTP/1.1 500 Internal Server Error\r\nContent-Type: text/plain;charset=UTF-8\r\nContent-Length: 21\r\n\r\nE8 NoFile /f.jsp:1:1\n\n\
    Whole 0 HTTP/1.1 500 Internal Server Error\r\nContent-Type: text/plain;charset=UTF-8\r\nContent-Length: 21\r\n\r\nE8 NoFile /f.jsp:1:1\n\n\
    Whole 0 HTTP/1.1 200 OK\r\nContent-Type: text/plain;charset=UTF-8\r\nContent-Length: 4\r\n\r\ntext\n\
    Whole 0 HTTP/1.1 405 Method Not Allowed\r\nContent-Type: text/plain;charset=UTF-8\r\nAllow: GET, HEAD, POST\r\nContent-Length: 17\r\n\r\nMethodNotAllowed\n\n\
    9 BFOFOEBFFEBFOEBFOAEBFAEBFOEBFOEBFEBE";

// Requests of a site whose journal has room for one.
const TO_FULL: [Asked<'static>; 4] = [
    ("GET", "/none", ""),
    ("GET", "/none", ""),
    ("HEAD", "/none", ""),
    ("PUT", "/none", ""),
];

const FULL: &str = "\
    Whole 0 HTTP/1.1 404 Not Found\r\nContent-Type: text/plain;charset=UTF-8\r\nContent-Length: 9\r\n\r\nNotFound\n\n\
    Whole 0 HTTP/1.1 503 Service Unavailable\r\nContent-Type: text/plain;charset=UTF-8\r\nContent-Length: 18\r\n\r\nJournalFull 160 0\n\n\
    Whole 0 HTTP/1.1 503 Service Unavailable\r\nContent-Type: text/plain;charset=UTF-8\r\nContent-Length: 18\r\n\r\n\n\
    Whole 0 HTTP/1.1 405 Method Not Allowed\r\nContent-Type: text/plain;charset=UTF-8\r\nAllow: GET, HEAD, POST\r\nContent-Length: 17\r\n\r\nMethodNotAllowed\n\n\
    3 BE";

// Requests whose answers are not taken.
const NOT_TAKEN: [Asked<'static>; 3] = [
    ("GET", "/b.jsp", ""),
    ("GET", "/h.jsp", ""),
    ("GET", "/none", ""),
];

// A page that counts the requests of its session.
const COUNTING: [(&str, &str); 1] = [(
    "/s.jsp",
    "<%@ taglib prefix=\"c\" uri=\"jakarta.tags.core\" %><c:set var=\"n\" value=\"${n + 1}\" scope=\"session\"/>${n}",
)];

// The id of the first session.
const FIRST: &str = "0000000000000000ade0b876903df1a0e56a5d4028bd8653";

// The last time the session has ended, and a second one is made.
const COUNTED: &str = "\
    Whole 101 HTTP/1.1 200 OK\r\nContent-Type: text/html;charset=UTF-8\r\nSet-Cookie: JSESSIONID=0000000000000000ade0b876903df1a0e56a5d4028bd8653; Path=/; HttpOnly\r\nContent-Length: 1\r\n\r\n1\n\
    Whole 0 HTTP/1.1 200 OK\r\nContent-Type: text/html;charset=UTF-8\r\nContent-Length: 1\r\n\r\n2\n\
    Whole 0 HTTP/1.1 200 OK\r\nContent-Type: text/html;charset=UTF-8\r\nSet-Cookie: JSESSIONID=0000000000000001b819d2bd1aed8da0ccef36a8c70d778b; Path=/; HttpOnly\r\nContent-Length: 1\r\n\r\n1\n\
    3602 BFOSAEBFEBFSAE";

#[test]
fn requests_are_answered(rt: HostRuntime) -> Result<(), Fail> {
    for (course, told) in &ROWS {
        assert_eq!(rt; come(rt.alloc(), course)?.as_str(), *told);
    }
    Ok(())
}
