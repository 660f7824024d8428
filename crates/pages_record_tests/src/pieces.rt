use crate::recorded::record_told;
use std::alloc::{AllocError, Global};
use std::test::Fail;

// A file that is longer than what is gathered for a write is put and published.
const HEAD: &[u8] =
    b"70115\nPUT /_editor/files/wide.txt HTTP/1.1\r\nHost: x\r\nContent-Length: 70000\r\n\r\n";

const END: &[u8] = b"POST /_editor/publish HTTP/1.1\r\nHost: x\r\n\r\n";

const PART: [u8; 1_000] = [b'x'; 1_000];

// How many writes its journal is: what is before the file and the file, what is before the bytes
// that came and these, and what is left.
const WRITES: u64 = 5;

fn connection(alloc: Global) -> Result<Vec<u8>, AllocError> {
    let mut bytes = HEAD.to_vec(alloc)?;
    for _ in 0..70 {
        bytes.extend_from_slice(&PART)?;
    }
    bytes.extend_from_slice(END)?;
    Ok(bytes)
}

// Where a write fails the journal is cut off, and nothing is written behind.
#[test]
fn a_journal_is_cut_off_where_a_write_fails(rt: HostRuntime) -> Result<(), Fail> {
    let list = connection(rt.alloc())?;
    let (status, wanted) = record_told(rt.alloc(), &list, 4_096, &[0], &[WRITES])?;
    assert_eq!(rt; status, 0);
    for call in 0..WRITES {
        let (status, text) = record_told(rt.alloc(), &list, 4_096, &[0], &[call])?;
        let is_cut = text.len() < wanted.len() && wanted.starts_with(&text);
        assert!(rt; status == 4 && is_cut);
    }
    Ok(())
}
