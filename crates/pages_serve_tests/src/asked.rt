use crate::wires::NoBind;
use edges::{MemSink, StillClock};
use pages_serve::{Platform, serve};
use std::alloc::{AllocError, Global};
use std::sync::Wait;
use std::test::Fail;
use std::thread::Threads;

// Words between blanks, and the status for them where no port can be had.
const ROWS: [(&str, u8); 23] = [
    ("serve --port 1 --editor-port 65535 --workers 1", 7),
    ("serve --workers=63 --editor-port=1 --port=0080", 7),
    (
        "serve --workers=62 --editor-port=1 --port=2 --preview-port=3",
        7,
    ),
    (
        "serve --workers=63 --editor-port=1 --port=2 --preview-port=3",
        1,
    ),
    (
        "serve --workers=1 --editor-port=1 --port=2 --preview-port=3 --round=1 --editor-round=1",
        1,
    ),
    (
        "serve --workers=63 --editor-port=1 --port=2 --contexts=a,b",
        7,
    ),
    (
        "serve --workers=1 --editor-port=1 --port=2 --contexts a,a",
        1,
    ),
    (
        "serve --workers=1 --editor-port=1 --port=2 --idle=9 --contexts=a",
        1,
    ),
    (
        "serve --port=1 --editor-port 2 --workers=1 --idle=1000000000",
        7,
    ),
    (
        "serve --port=1 --editor-port=2 --workers=1 --seed 00112233445566778899aabbccddeeffFFEEDDCCBBAA99887766554433221100",
        7,
    ),
    (
        "serve --port=1 --editor-port=2 --workers=1 --round=1 --editor-round 1000000",
        7,
    ),
    ("serve --port=1 --editor-port=2 --workers=1 --round=1", 1),
    (
        "serve --port=1 --editor-port=2 --workers=1 --round=1000001 --editor-round=1",
        1,
    ),
    ("", 1),
    ("serves --port=1 --editor-port=2 --workers=1", 1),
    ("serve --port=1 --editor-port=2", 1),
    ("serve --port=1 --port=1 --editor-port=2 --workers=1", 1),
    ("serve --port=65536 --editor-port=2 --workers=1", 1),
    ("serve --port=0 --editor-port=2 --workers=1", 1),
    ("serve --port=1 --editor-port=2 --workers=64", 1),
    ("serve --port=1 --editor-port=2 --workers", 1),
    ("serve --port=1 --editor-port=2 --workers=1 --seed=00", 1),
    ("serve --port=1 --editor-port=2 --workers=1 --idle=0", 1),
];

// The words between blanks; an empty text has none.
fn words_of(alloc: Global, text: &str) -> Result<Vec<String>, AllocError> {
    let mut words = Vec::new(alloc);
    if !text.is_empty() {
        for word in text.split(' ') {
            words.push(String::from_str(alloc, word)?)?;
        }
    }
    Ok(words)
}

// The status for these words, how many ports were asked for, and how many bytes were noticed.
fn asked<R: Threads + Wait + Sync>(rt: &R, alloc: Global, words: &[String]) -> (u8, u64, usize) {
    let mut notices = MemSink::new(alloc, Vec::new(alloc));
    let mut journals = MemSink::new(alloc, Vec::new(alloc));
    let mut bind = NoBind { faults: 0 };
    let clocks = StillClock { moment: 0 };
    let platform = Platform {
        rt,
        alloc,
        clocks: &clocks,
    };
    let status = serve(platform, words, &mut bind, &mut journals, &mut notices);
    (status, bind.faults, notices.taken().len())
}

#[test]
fn words_ask_to_serve(rt: HostRuntime) -> Result<(), Fail> {
    for &(text, status) in &ROWS {
        let words = words_of(rt.alloc(), text)?;
        let (found, ports, noticed) = asked(&rt, rt.alloc(), &words);
        assert!(rt; found == status && ports == u64::from(status == 7) && noticed == 0);
    }
    Ok(())
}
