ghost use Rattle.std.specs.Prelude.{◌≡◌, ◌<◌, ◌≤◌, length};

use edges::{MemClock, MemSink, MemSource, Steps, Unseen};
use pages_record::play_record;
use std::alloc::{AllocError, Global};
use std::marker::Brand;
use std::sync::ledger::{Blank, Ledger};

/// The status of `record` over this input, which comes in pieces of that size, and what it wrote.
/// Its clock answers these moments, and the sink fails at these calls.
pub fn record_told(
    alloc: Global,
    input: &[u8],
    piece: usize,
    moments: &[u64],
    writes: &[u64],
) -> Result<(u8, Vec<u8>), AllocError>
    requires pieces { 1 ≤ piece }
    requires moments { 0 < length moments.now }
{
    let source = MemSource::new(input.to_vec(alloc)?, piece, Vec::new(alloc));
    let sink = MemSink::new(alloc, writes.to_vec(alloc)?);
    let clock = MemClock::new(moments.to_vec(alloc)?);
    recorded::<Brand>(alloc, Blank::new(1), source, sink, clock)
}

// The status of `record` over this source, this sink and this clock, and what the sink took.
fn recorded<N: Ledger>(
    alloc: Global,
    blank: Blank,
    mut source: MemSource,
    mut sink: MemSink,
    mut clock: MemClock,
) -> Result<(u8, Vec<u8>), AllocError>
    requires name { blank.name ≡ N.name }
    requires parts { blank.parts ≡ N.parts }
    requires some { 0 < N.parts }
{
    let mut words = Vec::new(alloc);
    words.push(String::from_str(alloc, "record")?)?;
    let mut steps = Steps::<Unseen<N>>::unseen(blank);
    let status = play_record(
        alloc,
        &words,
        &mut source,
        &mut sink,
        &mut clock,
        &mut steps,
    );
    Ok((status, sink.taken().to_vec(alloc)?))
}
