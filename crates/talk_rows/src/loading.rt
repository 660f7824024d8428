// The command `load`.
ghost use Rattle.std.specs.Prelude.{◌≡◌, ◌<◌};

use crate::playing::words_of;
use crate::writing::shown;
use edges::{Counting, MemSink, Steps};
use pages_load::load;
use std::alloc::{AllocError, Global};
use std::marker::Brand;
use std::sync::ledger::{Blank, Ledger};

/// The status of `load` with this number, what it wrote to a sink that may fail at its first write,
/// and how many bytes it read to make pages.
pub fn load_told(alloc: Global, number: &str, fails: bool) -> Result<String, AllocError> {
    let words = format!(in alloc; "load {number}")?;
    let words = words_of(alloc, words.as_str().trim())?;
    let (status, read, text) = loaded::<Brand>(alloc, Blank::new(1), &words, fails)?;
    let told = shown(alloc, status, &text)?;
    format!(in alloc; "{told} {read}")
}

fn loaded<N: Ledger>(
    alloc: Global,
    blank: Blank,
    words: &[String],
    fails: bool,
) -> Result<(u8, u64, Vec<u8>), AllocError>
    requires name { blank.name ≡ N.name }
    requires parts { blank.parts ≡ N.parts }
    requires some { 0 < N.parts }
{
    let mut fails_at = Vec::new(alloc);
    if fails {
        fails_at.push(0)?;
    }
    let mut sink = MemSink::new(alloc, fails_at);
    let mut steps = Steps::<Counting<N>>::counting(blank);
    let status = load(alloc, words, &mut sink, &mut steps);
    Ok((status, steps.count(), sink.taken().to_vec(alloc)?))
}
