use edges::MemSink;
use http_out::{
    Head, Status, tell_plain, write_chunk, write_end, write_head, write_no_memory, write_whole,
};
use pg_text::Text;
use std::alloc::{AllocError, Global};
use std::test::Fail;

// What a sink took, and behind it whether it failed.
fn taken(alloc: Global, sink: &MemSink, failed: bool) -> Result<String, AllocError> {
    let text = str::from_utf8(sink.taken()).unwrap_or("no text");
    let end = if failed { " failed" } else { "" };
    format!(in alloc; "{text}{end}")
}

// A redirect without a body.
fn redirect(alloc: Global) -> Result<String, AllocError> {
    let head = Head {
        status: Status::Found,
        content_type: None,
        set_cookie: Some(Text::copy_of(alloc, "00ff")?),
        location: Some(Text::copy_of(alloc, "/b.jsp")?),
        allow: false,
        close: true,
    };
    let mut sink = MemSink::new(alloc, Vec::new(alloc));
    let mut failed = false;
    write_whole(alloc, &mut sink, &mut failed, &head, b"", true)?;
    taken(alloc, &sink, failed)
}

#[test]
fn fields_stand_in_their_order(rt: HostRuntime) -> Result<(), Fail> {
    let told = redirect(rt.alloc())?;
    assert_eq!(rt;
        told.as_str(),
        "HTTP/1.1 302 Found\r\nSet-Cookie: JSESSIONID=00ff; Path=/; HttpOnly\r\nLocation: /b.jsp\r\nContent-Length: 0\r\nConnection: close\r\n\r\n"
    );
    Ok(())
}

// A plain response with this line.
fn plain(
    alloc: Global,
    status: Status,
    close: bool,
    line: &str,
    shown: bool,
) -> Result<String, AllocError> {
    let mut sink = MemSink::new(alloc, Vec::new(alloc));
    let failed = tell_plain(alloc, &mut sink, status, close, line.as_bytes(), shown)?;
    taken(alloc, &sink, failed)
}

#[test]
fn a_plain_response_has_a_line(rt: HostRuntime) -> Result<(), Fail> {
    for &(status, close, line, shown, wanted) in &[
        (
            Status::MethodNotAllowed,
            false,
            "MethodNotAllowed",
            true,
            "HTTP/1.1 405 Method Not Allowed\r\nContent-Type: text/plain;charset=UTF-8\r\nAllow: GET, HEAD, POST\r\nContent-Length: 17\r\n\r\nMethodNotAllowed\n",
        ),
        (
            Status::HeadTooLarge,
            true,
            "HeadTooLarge",
            false,
            "HTTP/1.1 431 Request Header Fields Too Large\r\nContent-Type: text/plain;charset=UTF-8\r\nContent-Length: 13\r\nConnection: close\r\n\r\n",
        ),
    ] {
        let told = plain(rt.alloc(), status, close, line, shown)?;
        assert_eq!(rt; told.as_str(), wanted);
    }
    Ok(())
}

// A response whose body comes in one chunk, of so many letters `a` and a `b`.
fn chunked(alloc: Global, count: usize) -> Result<String, AllocError> {
    let head = Head::plain(Status::Ok, false);
    let mut piece = vec![in alloc; b'a'; count]?;
    piece.push(b'b')?;
    let mut sink = MemSink::new(alloc, Vec::new(alloc));
    let mut failed = false;
    write_head(alloc, &mut sink, &mut failed, &head)?;
    write_chunk(&mut sink, &mut failed, &piece);
    write_end(&mut sink, &mut failed);
    taken(alloc, &sink, failed)
}

// The same as it is wanted, by the size of the chunk in writing.
fn wanted_chunk(alloc: Global, count: usize, size: &str) -> Result<String, AllocError> {
    let letters = "a".repeat(alloc, count)?;
    format!(in alloc;
        "HTTP/1.1 200 OK\r\nContent-Type: text/plain;charset=UTF-8\r\nTransfer-Encoding: chunked\r\n\r\n{size}\r\n{letters}b\r\n0\r\n\r\n"
    )
}

#[test]
fn a_body_comes_in_chunks(rt: HostRuntime) -> Result<(), Fail> {
    for &(count, size) in &[(0, "1"), (15, "10"), (1_023, "400"), (2_747, "abc")] {
        let wanted = wanted_chunk(rt.alloc(), count, size)?;
        assert_eq!(rt; chunked(rt.alloc(), count)?.as_str(), wanted.as_str());
    }
    Ok(())
}

#[test]
fn want_of_memory_is_told(rt: HostRuntime) -> Result<(), Fail> {
    for &(close, shown, size) in &[
        (false, true, 104),
        (true, true, 123),
        (false, false, 95),
        (true, false, 114),
    ] {
        let mut sink = MemSink::new(rt.alloc(), Vec::new(rt.alloc()));
        let mut failed = false;
        write_no_memory(&mut sink, &mut failed, close, shown);
        assert_eq!(rt; sink.taken().len(), size);
    }
    Ok(())
}

// The second of the three parts of a chunk fails, and nothing follows.
#[test]
fn a_failed_sink_is_left_alone(rt: HostRuntime) -> Result<(), Fail> {
    let mut sink = MemSink::new(rt.alloc(), vec![in rt.alloc(); 1]?);
    let mut failed = false;
    write_chunk(&mut sink, &mut failed, b"hi");
    write_end(&mut sink, &mut failed);
    let told = taken(rt.alloc(), &sink, failed)?;
    assert_eq!(rt; told.as_str(), "2\r\n failed");
    Ok(())
}
