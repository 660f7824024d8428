// The commands `contexts` and `preview` over bytes in memory.
ghost use Rattle.std.specs.Prelude.{◌≡◌, ◌<◌};

use crate::playing::words_of;
use crate::writing::{input_of, shown};
use context_talk::play_contexts;
use edges::{MemClock, MemSink, MemSource, Steps, Unseen};
use preview::preview_play;
use std::alloc::{AllocError, Global};
use std::marker::Brand;
use std::sync::ledger::{Blank, Ledger};

/// What the words of `contexts` come to over what is said.
pub fn contexts_told(alloc: Global, words: &str, said: &[String]) -> Result<String, AllocError> {
    let source = MemSource::new(input_of(alloc, said)?, 4_096, Vec::new(alloc));
    let words = words_of(alloc, words)?;
    let (status, text) = contexts::<Brand>(alloc, Blank::new(1), &words, source)?;
    shown(alloc, status, &text)
}

fn contexts<N: Ledger>(
    alloc: Global,
    blank: Blank,
    words: &[String],
    mut source: MemSource,
) -> Result<(u8, Vec<u8>), AllocError>
    requires name { blank.name ≡ N.name }
    requires parts { blank.parts ≡ N.parts }
    requires some { 0 < N.parts }
{
    let mut sink = MemSink::new(alloc, Vec::new(alloc));
    let mut clock = MemClock::new(vec![in alloc; 0]?);
    let mut steps = Steps::<Unseen<N>>::unseen(blank);
    let status = play_contexts(alloc, words, &mut source, &mut sink, &mut clock, &mut steps);
    Ok((status, sink.taken().to_vec(alloc)?))
}

/// What the words of `preview` come to over what is said.
pub fn preview_told(alloc: Global, words: &str, said: &[String]) -> Result<String, AllocError> {
    let source = MemSource::new(input_of(alloc, said)?, 4_096, Vec::new(alloc));
    let words = words_of(alloc, words)?;
    let (status, text) = previewed::<Brand>(alloc, Blank::new(1), &words, source)?;
    shown(alloc, status, &text)
}

fn previewed<N: Ledger>(
    alloc: Global,
    blank: Blank,
    words: &[String],
    mut source: MemSource,
) -> Result<(u8, Vec<u8>), AllocError>
    requires name { blank.name ≡ N.name }
    requires parts { blank.parts ≡ N.parts }
    requires some { 0 < N.parts }
{
    let mut sink = MemSink::new(alloc, Vec::new(alloc));
    let mut steps = Steps::<Unseen<N>>::unseen(blank);
    let status = preview_play(alloc, words, &mut source, &mut sink, &mut steps);
    Ok((status, sink.taken().to_vec(alloc)?))
}
