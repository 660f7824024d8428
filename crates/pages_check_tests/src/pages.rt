use crate::checked::{Outside, check_told};
use std::alloc::{AllocError, Global};
use std::test::Fail;

// A page's path and text, and what is told of it.
const PAGES: [(&str, &[u8], &str); 11] = [
    ("/a.jsp", b"hello", "0 ok\n"),
    ("a.jsp", b"", "0 ok\n"),
    ("/a.jsp", b"x<% y", "6 E4 Scripting /a.jsp:1:2\n"),
    (
        "/e.jsp",
        b"<%@ taglib prefix=\"c\" uri=\"jakarta.tags.core\" %><c:nope/><c:if test=\"true\">",
        "6 E11 NoTag /e.jsp:1:49\n",
    ),
    ("/a/../b.jsp", b"\n ${1 +}", "6 E15 ElSyntax /b.jsp:2:2\n"),
    (
        "/a.jsp",
        b"${9223372036854775808}",
        "6 E15 ElSyntax /a.jsp:1:1\n",
    ),
    ("/a.jspx", b"hello", "6 E5 XmlSyntax /a.jspx:1:1\n"),
    (
        "/a.jsp",
        b"<%@ include file=\"b.jsp\" %>",
        "6 E8 NoFile /a.jsp:1:1\n",
    ),
    (
        "/a.jsp",
        b"\xc3\xa4\n\xc3\xa4x\xffy<% z",
        "6 E1 NotUtf8 /a.jsp:2:3\n",
    ),
    ("/a.jsp", b"a\xe2\x82", "6 E1 NotUtf8 /a.jsp:1:2\n"),
    ("/\u{e4}.jsp", b"<%-- x", "6 E2 Unclosed /\u{e4}.jsp:1:1\n"),
];

#[test]
fn each_page_has_its_line(rt: HostRuntime) -> Result<(), Fail> {
    for &(path, text, wanted) in &PAGES {
        for &piece in &[1, 65_536] {
            let outside = Outside {
                piece,
                read_fails: &[],
                write_fails: &[],
            };
            let told = check_told(rt.alloc(), &["check", path], text, &outside)?;
            assert_eq!(rt; told.as_str(), wanted);
        }
    }
    Ok(())
}

// What is told of a page of these bytes, each read of which may give all.
fn page_told(alloc: Global, path: &str, text: &[u8]) -> Result<String, AllocError> {
    let outside = Outside {
        piece: 65_536,
        read_fails: &[],
        write_fails: &[],
    };
    check_told(alloc, &["check", path], text, &outside)
}

#[test]
fn a_page_has_its_limit(rt: HostRuntime) -> Result<(), Fail> {
    for &(size, byte, wanted) in &[
        (1_048_576, b'x', "0 ok\n"),
        (1_048_577, b'x', "6 E20 TooLarge /a.jsp:1:1\n"),
        // Its size is looked at before its bytes.
        (1_048_577, b'\xff', "6 E20 TooLarge /a.jsp:1:1\n"),
    ] {
        let text = vec![in rt.alloc(); byte; size]?;
        let told = page_told(rt.alloc(), "/a.jsp", &text)?;
        assert_eq!(rt; told.as_str(), wanted);
    }
    Ok(())
}

// What is told of a page of elements within one another.
fn nested_told(alloc: Global, levels: usize) -> Result<String, AllocError> {
    let starts = "<c:if test=\"true\">".repeat(alloc, levels)?;
    let ends = "</c:if>".repeat(alloc, levels)?;
    let text = format!(in alloc;
        "<%@ taglib prefix=\"c\" uri=\"jakarta.tags.core\" %>{starts}x{ends}"
    )?;
    page_told(alloc, "/n.jsp", text.as_bytes())
}

#[test]
fn elements_stand_64_deep(rt: HostRuntime) -> Result<(), Fail> {
    for &(levels, wanted) in &[(64, "0 ok\n"), (65, "6 E20 TooLarge /n.jsp:1:1201\n")] {
        assert_eq!(rt; nested_told(rt.alloc(), levels)?.as_str(), wanted);
    }
    Ok(())
}
