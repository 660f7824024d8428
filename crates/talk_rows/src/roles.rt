// A reader's connection behind an editor's, to one site.
ghost use Rattle.std.specs.Prelude.{◌≡◌, ◌<◌};

use crate::writing::{shown, written_out};
use edges::{MemClock, MemSink, MemSource, Steps, Unseen};
use pages_talk::{Ended, Role, start_alone, talk};
use std::alloc::{AllocError, Global};
use std::marker::Brand;
use std::sync::ledger::{Blank, Ledger};

/// What is answered to the lines behind `reader`, which a reader says behind an editor who says
/// those before. The status is 0 where the connection is done.
pub fn roles_told(alloc: Global, said: &[String]) -> Result<String, AllocError> {
    let mut editors = Vec::new(alloc);
    let mut readers = Vec::new(alloc);
    let mut is_reader = false;
    for line in said {
        let text = written_out(alloc, line.as_str())?;
        if line.as_str() == "reader" {
            is_reader = true;
        } else if is_reader {
            readers.extend_from_slice(text.as_bytes())?;
        } else {
            editors.extend_from_slice(text.as_bytes())?;
        }
    }
    let (ended, text) = read::<Brand>(alloc, Blank::new(1), editors, readers)?;
    shown(alloc, if ended == Ended::Done { 0 } else { 1 }, &text)
}

// What a reader's connection comes to behind an editor's, and what it writes.
fn read<N: Ledger>(
    alloc: Global,
    blank: Blank,
    editors: Vec<u8>,
    readers: Vec<u8>,
) -> Result<(Ended, Vec<u8>), AllocError>
    requires name { blank.name ≡ N.name }
    requires parts { blank.parts ≡ N.parts }
    requires some { 0 < N.parts }
{
    let mut port = start_alone(alloc, [0; 32])?;
    let mut clock = MemClock::new(vec![in alloc; 0]?);
    let mut steps = Steps::<Unseen<N>>::unseen(blank);
    let mut source = MemSource::new(editors, 4_096, Vec::new(alloc));
    let mut sink = MemSink::new(alloc, Vec::new(alloc));
    talk(
        alloc,
        &mut port,
        Role::Both,
        &mut source,
        &mut sink,
        &mut clock,
        &mut steps,
    );
    let mut source = MemSource::new(readers, 4_096, Vec::new(alloc));
    let mut sink = MemSink::new(alloc, Vec::new(alloc));
    let ended = talk(
        alloc,
        &mut port,
        Role::Reader,
        &mut source,
        &mut sink,
        &mut clock,
        &mut steps,
    );
    Ok((ended, sink.taken().to_vec(alloc)?))
}
