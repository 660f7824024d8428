ghost use Rattle.std.specs.Prelude.{◌≡◌, ◌<◌, ◌≤◌};

use edges::{MemSink, MemSource, Steps, Unseen};
use pages_check::check;
use std::alloc::{AllocError, Global};
use std::marker::Brand;
use std::sync::ledger::{Blank, Ledger};

/// The outside of a check: how many bytes a read gives, and the numbers of the reads and the writes
/// that fail.
#[derive(Clone, Copy)]
pub struct Outside<'o> {
    pub piece: usize,
    pub read_fails: &'o [u64],
    pub write_fails: &'o [u64],
}

// The status of the command with these words over this input, and what it wrote.
fn checked<N: Ledger>(
    alloc: Global,
    blank: Blank,
    words: &[&str],
    input: &[u8],
    outside: &Outside,
) -> Result<(u8, Vec<u8>), AllocError>
    requires name { blank.name ≡ N.name }
    requires parts { blank.parts ≡ N.parts }
    requires some { 0 < N.parts }
    requires piece { 1 ≤ outside.now.piece }
{
    let mut owned = Vec::new(alloc);
    for word in words {
        owned.push(String::from_str(alloc, word)?)?;
    }
    let mut source = MemSource::new(
        input.to_vec(alloc)?,
        outside.piece,
        outside.read_fails.to_vec(alloc)?,
    );
    let mut sink = MemSink::new(alloc, outside.write_fails.to_vec(alloc)?);
    let mut steps = Steps::<Unseen<N>>::unseen(blank);
    let status = check(alloc, &owned, &mut source, &mut sink, &mut steps);
    Ok((status, sink.taken().to_vec(alloc)?))
}

/// The same in one line: the status, a blank, and what was written.
pub fn check_told(
    alloc: Global,
    words: &[&str],
    input: &[u8],
    outside: &Outside,
) -> Result<String, AllocError>
    requires piece { 1 ≤ outside.now.piece }
{
    let (status, written) = checked::<Brand>(alloc, Blank::new(1), words, input, outside)?;
    let text = str::from_utf8(&written).unwrap_or("no text");
    format!(in alloc; "{status} {text}")
}
