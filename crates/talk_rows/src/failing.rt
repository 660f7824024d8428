// Input that is cut, reads that fail and writes that fail, each at every place in turn.
use crate::playing::{failing, play_told};
use std::alloc::{AllocError, Global};

/// From which size on a conversation that ends there has another status, or another number of bytes
/// answered.
pub fn cuts(alloc: Global, input: &[u8]) -> Result<String, AllocError> {
    let mut cuts = String::from_str(alloc, "cut at each byte")?;
    let (_, whole) = play_told(alloc, input, 80)?;
    let mut before = (u8::MAX, 0, true);
    for size in 0..=input.len() {
        let (status, text) = play_told(alloc, &input[..size], 80)?;
        let found = (status, text.len(), whole.as_slice().starts_with(&text));
        if found != before {
            let (status, length, is_front) = found;
            let front = if is_front { "" } else { " of something else" };
            write!(cuts, "\nfrom {size}: {status}, {length} bytes{front}")?;
            before = found;
        }
    }
    Ok(cuts)
}

/// How many reads of one byte may fail, and whether all is answered where none does.
pub fn reads(alloc: Global, input: &[u8]) -> Result<String, AllocError> {
    let (count, right) = failures(alloc, input, 3)?;
    format!(in alloc; "{count} reads may fail: {right}")
}

/// Whether more than two writes may fail, and all is answered where none does.
pub fn writes(alloc: Global, input: &[u8]) -> Result<String, AllocError> {
    let (count, right) = failures(alloc, input, 4)?;
    let many = count > 2;
    format!(in alloc; "more than two writes may fail: {many} {right}")
}

// At how many calls, in turn from the first, a failure is told with this status and a front of the
// answers is written; and whether all is answered where a later one would fail.
fn failures(alloc: Global, input: &[u8], status: u8) -> Result<(u64, bool), AllocError> {
    let (_, whole) = play_told(alloc, input, 4_096)?;
    for call in 0..2_000 {
        let (found, text) = fail(alloc, input, status, call)?;
        if found != status || !whole.as_slice().starts_with(&text) {
            return Ok((call, found == 0 && text.as_slice() == whole.as_slice()));
        }
    }
    Ok((2_000, false))
}

// What comes of a conversation where one read fails, or with the status of a write fault one write.
fn fail(alloc: Global, input: &[u8], status: u8, call: u64) -> Result<(u8, Vec<u8>), AllocError> {
    if status == 3 {
        failing(alloc, input, 1, &[call], &[])
    } else {
        failing(alloc, input, 4_096, &[], &[call])
    }
}
