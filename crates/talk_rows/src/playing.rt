// The command `play` over bytes in memory.
ghost use Rattle.std.specs.Prelude.{◌≡◌, ◌<◌, ◌≤◌};

use edges::{MemClock, MemSink, MemSource, Steps, Unseen};
use pages_talk::play;
use std::alloc::{AllocError, Global};
use std::marker::Brand;
use std::sync::ledger::{Blank, Ledger};

/// The status of `play` over this input, which comes in pieces of that size, and what it wrote.
pub fn play_told(alloc: Global, input: &[u8], piece: usize) -> Result<(u8, Vec<u8>), AllocError>
    requires { 1 ≤ piece }
{
    failing(alloc, input, piece, &[], &[])
}

/// The same where the source and the sink fail at these calls.
pub fn failing(
    alloc: Global,
    input: &[u8],
    piece: usize,
    reads: &[u64],
    writes: &[u64],
) -> Result<(u8, Vec<u8>), AllocError>
    requires { 1 ≤ piece }
{
    let source = MemSource::new(input.to_vec(alloc)?, piece, reads.to_vec(alloc)?);
    let sink = MemSink::new(alloc, writes.to_vec(alloc)?);
    let words = words_of(alloc, "play")?;
    played::<Brand>(alloc, Blank::new(1), &words, source, sink)
}

/// The status of these words over an empty input, and what was written.
pub fn worded(alloc: Global, words: &str) -> Result<(u8, Vec<u8>), AllocError> {
    let source = MemSource::new(Vec::new(alloc), 1, Vec::new(alloc));
    let sink = MemSink::new(alloc, Vec::new(alloc));
    let words = words_of(alloc, words)?;
    played::<Brand>(alloc, Blank::new(1), &words, source, sink)
}

/// Words between blanks.
pub fn words_of(alloc: Global, words: &str) -> Result<Vec<String>, AllocError> {
    let mut owned = Vec::new(alloc);
    if !words.is_empty() {
        for word in words.split(' ') {
            owned.push(String::from_str(alloc, word)?)?;
        }
    }
    Ok(owned)
}

// The status of these words over this source and this sink, and what the sink took.
fn played<N: Ledger>(
    alloc: Global,
    blank: Blank,
    words: &[String],
    mut source: MemSource,
    mut sink: MemSink,
) -> Result<(u8, Vec<u8>), AllocError>
    requires name { blank.name ≡ N.name }
    requires parts { blank.parts ≡ N.parts }
    requires some { 0 < N.parts }
{
    let mut clock = MemClock::new(vec![in alloc; 0]?);
    let mut steps = Steps::<Unseen<N>>::unseen(blank);
    let status = play(alloc, words, &mut source, &mut sink, &mut clock, &mut steps);
    Ok((status, sink.taken().to_vec(alloc)?))
}
