use crate::lines::made;
use load_gen::counted;
use std::alloc::{AllocError, Global};
use std::test::Fail;

const ONE_PAGE: &str =
    "PUT /_editor/files/p0.jsp HTTP/1.1\r\nHost: x\r\nContent-Length: 73\r\n\r\n<%@ page session=\"false\" %><%@ include file=\"/inc0.jspf\" %>${param.n + 0}PUT /_editor/files/inc0.jspf HTTP/1.1\r\nHost: x\r\nContent-Length: 3\r\n\r\nv0;PUT /_editor/files/inc1.jspf HTTP/1.1\r\nHost: x\r\nContent-Length: 3\r\n\r\nv0;PUT /_editor/files/inc2.jspf HTTP/1.1\r\nHost: x\r\nContent-Length: 3\r\n\r\nv0;PUT /_editor/files/inc3.jspf HTTP/1.1\r\nHost: x\r\nContent-Length: 3\r\n\r\nv0;PUT /_editor/files/inc4.jspf HTTP/1.1\r\nHost: x\r\nContent-Length: 3\r\n\r\nv0;PUT /_editor/files/inc5.jspf HTTP/1.1\r\nHost: x\r\nContent-Length: 3\r\n\r\nv0;PUT /_editor/files/inc6.jspf HTTP/1.1\r\nHost: x\r\nContent-Length: 3\r\n\r\nv0;PUT /_editor/files/inc7.jspf HTTP/1.1\r\nHost: x\r\nContent-Length: 3\r\n\r\nv0;PUT /_editor/files/inc8.jspf HTTP/1.1\r\nHost: x\r\nContent-Length: 3\r\n\r\nv0;PUT /_editor/files/inc9.jspf HTTP/1.1\r\nHost: x\r\nContent-Length: 3\r\n\r\nv0;POST /_editor/publish HTTP/1.1\r\nHost: x\r\n\r\nPUT /_editor/files/inc0.jspf HTTP/1.1\r\nHost: x\r\nContent-Length: 3\r\n\r\nv1;POST /_editor/publish HTTP/1.1\r\nHost: x\r\n\r\nGET /p0.jsp?n=0 HTTP/1.1\r\nHost: x\r\n\r\nGET /p0.jsp?n=0 HTTP/1.1\r\nHost: x\r\n\r\nGET /p0.jsp?n=0 HTTP/1.1\r\nHost: x\r\n\r\nGET /p0.jsp?n=0 HTTP/1.1\r\nHost: x\r\n\r\n";

#[test]
fn a_site_of_one_page_is_these_messages(rt: HostRuntime) -> Result<(), Fail> {
    assert_eq!(rt; made(rt.alloc(), 1)?.as_str(), ONE_PAGE);
    Ok(())
}

// The pages of a site of two.
const TWO_PAGES: &str =
    "PUT /_editor/files/p0.jsp HTTP/1.1\r\nHost: x\r\nContent-Length: 73\r\n\r\n<%@ page session=\"false\" %><%@ include file=\"/inc0.jspf\" %>${param.n + 0}PUT /_editor/files/p1.jsp HTTP/1.1\r\nHost: x\r\nContent-Length: 73\r\n\r\n<%@ page session=\"false\" %><%@ include file=\"/inc1.jspf\" %>${param.n + 1}";

// Such a site from its first publishing on: each round changes a part, publishes it and asks four
// times.
const TWO_ROUNDS: &str =
    "POST /_editor/publish HTTP/1.1\r\nHost: x\r\n\r\nPUT /_editor/files/inc0.jspf HTTP/1.1\r\nHost: x\r\nContent-Length: 3\r\n\r\nv1;POST /_editor/publish HTTP/1.1\r\nHost: x\r\n\r\nGET /p0.jsp?n=0 HTTP/1.1\r\nHost: x\r\n\r\nGET /p1.jsp?n=0 HTTP/1.1\r\nHost: x\r\n\r\nGET /p0.jsp?n=0 HTTP/1.1\r\nHost: x\r\n\r\nGET /p1.jsp?n=0 HTTP/1.1\r\nHost: x\r\n\r\nPUT /_editor/files/inc1.jspf HTTP/1.1\r\nHost: x\r\nContent-Length: 3\r\n\r\nv2;POST /_editor/publish HTTP/1.1\r\nHost: x\r\n\r\nGET /p1.jsp?n=1 HTTP/1.1\r\nHost: x\r\n\r\nGET /p0.jsp?n=1 HTTP/1.1\r\nHost: x\r\n\r\nGET /p1.jsp?n=1 HTTP/1.1\r\nHost: x\r\n\r\nGET /p0.jsp?n=1 HTTP/1.1\r\nHost: x\r\n\r\n";

// How many pages a site has, how its messages begin and end, and how many bytes they have.
const SITES: [(u32, &str, &str, usize); 5] = [
    (0, "", "", 0),
    (2, TWO_PAGES, TWO_ROUNDS, 1_569),
    (
        12,
        "",
        "GET /p2.jsp?n=11 HTTP/1.1\r\nHost: x\r\n\r\n",
        5_622,
    ),
    (1_000, "", "", 424_556),
    (1_001, "", "", 0),
];

// Whether the messages for so many pages begin and end so, and have so many bytes.
fn is_made(
    alloc: Global,
    pages: u32,
    first: &str,
    last: &str,
    bytes: usize,
) -> Result<bool, AllocError> {
    let text = made(alloc, pages)?;
    let has_ends = text.as_str().starts_with(first) && text.as_str().ends_with(last);
    Ok(has_ends && text.len() == bytes)
}

#[test]
fn sites_of_one_to_a_thousand_pages_have_their_messages(rt: HostRuntime) -> Result<(), Fail> {
    for &(pages, first, last, bytes) in &SITES {
        assert!(rt; is_made(rt.alloc(), pages, first, last, bytes)?);
    }
    Ok(())
}

#[test]
fn each_publishing_but_the_first_is_followed_by_four_requests(rt: HostRuntime) -> Result<(), Fail> {
    counted();
    let text = made(rt.alloc(), 12)?;
    let publishings = text.as_str().matches("POST /_editor/publish ").count();
    let requests = text.as_str().matches("GET /p").count();
    assert!(rt; (publishings, requests) == (13, 48));
    Ok(())
}
