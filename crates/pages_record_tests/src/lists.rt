use crate::recorded::record_told;
use std::alloc::{AllocError, Global};
use std::test::Fail;

// The journal of a connection without a byte.
const EMPTY: [&[u8]; 6] = [
    // the mark
    b"PGJRNL1\n",
    // the seed
    b"\0\0\0\0\0\0\0\0\0\0\0\0\0\0\0\0\0\0\0\0\0\0\0\0\0\0\0\0\0\0\0\0",
    // limit, passes, idle time, version, Begins, Freshes, moment
    b"\0\0\0\0\x80\0\0\0\0\0\0\0\0\0\0\x01\0\0\0\0\0\0\x07\x08\0\0\0\0\0\0\0\0\0\0\0\0\0\0\0\0\0\0\0\0\0\0\0\0\0\0\0\0\0\0\0\0",
    // attributes, files, sessions
    b"\0\0\0\0\0\0\0\0\0\0\0\0\0\0\0\0\0\0\0\0\0\0\0\0",
    // one entry: a Roll of pass 0
    b"\0\0\0\0\0\0\0\x01\0\n",
    // a talk: bytes, moments, answers, end
    b"\x01\0\0\0\0\0\0\0\0\0\0\0\0\0\0\0\0\0\0\0\0\0\0\0\0\0",
];

// No lists of connections.
const FAULTY: [&str; 12] = [
    "5\n",
    "1",
    "\n",
    "-1\n",
    "+1\nx",
    " 1\nx",
    "1 \nx",
    "000000001\nx",
    "0\n1\n",
    "0\nx",
    "1\r\nx",
    "99999999\n",
];

// Writes that fail, and how many journals of empty connections were written before.
const FAILING: [(u64, usize); 3] = [(0, 0), (1, 1), (2, 2)];

// The journals of so many of its connections.
fn journals_of(alloc: Global, count: usize) -> Result<Vec<u8>, AllocError> {
    let mut journals = Vec::new(alloc);
    for _ in 0..count {
        for part in &EMPTY {
            journals.extend_from_slice(part)?;
        }
    }
    Ok(journals)
}

#[test]
fn an_empty_connection_is_a_journal(rt: HostRuntime) -> Result<(), Fail> {
    let wanted = journals_of(rt.alloc(), 1)?;
    let (status, text) = record_told(rt.alloc(), b"0\n", 1, &[0], &[])?;
    assert!(rt; status == 0 && text.as_slice() == wanted.as_slice());
    Ok(())
}

#[test]
fn nothing_is_written_for_what_is_no_list(rt: HostRuntime) -> Result<(), Fail> {
    for input in &FAULTY {
        let (status, text) = record_told(rt.alloc(), input.as_bytes(), 4_096, &[0], &[])?;
        assert!(rt; status == 2 && text.is_empty());
    }
    Ok(())
}

// Each of these journals is one write, and it is done before the next connection begins.
#[test]
fn a_failed_write_ends_it(rt: HostRuntime) -> Result<(), Fail> {
    for &(call, count) in &FAILING {
        let wanted = journals_of(rt.alloc(), count)?;
        let (status, text) = record_told(rt.alloc(), b"0\n0\n0\n", 4_096, &[0], &[call])?;
        assert!(rt; status == 4 && text.as_slice() == wanted.as_slice());
    }
    Ok(())
}
