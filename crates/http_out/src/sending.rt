ghost use Rattle.std.specs.Prelude.{◌≡◌, ◌<◌, ◌≤◌, ◌++◌, ℕ, List, true, length, take, OnOk, OnErr};
ghost use Rattle.std.specs.declared.option.Option.{Option};
ghost use Rattle.std.specs.Io.KnownBytes.{Appends};
ghost use Rattle.edges.specs.Faults.{Rose};
ghost use Rattle.http_out.specs.Sent.{Sent};

use edges::{Failed, Sink};

/// Writes more of a text. Where the sink failed before in it, which `failed` says, it is given
/// nothing; `sent` speaks of the whole text so far, with these bytes.
pub fn write<K: Sink>(sink: &mut K, failed: &mut bool, bytes: &[u8])
    ensures sent { (old : Option (List ℕ)) (text : List ℕ) →
        Sent old (K.taken sink.old) text failed.old → Sent old (K.taken sink.new) (text ++ bytes.now) failed.new }
    ensures over { failed.old ≡ true → (sink.new ≡ sink.old) × (failed.new ≡ true) }
    ensures later { K.faults sink.old ≤ K.faults sink.new }
    ensures rose { (before : ℕ) → before ≤ K.faults sink.old →
        (failed.old ≡ true → Rose before (K.faults sink.old)) → failed.new ≡ true →
        Rose before (K.faults sink.new) }
{
    if *failed {
        return;
    }
    if let Err(Failed) = send(sink, bytes) {
        *failed = true;
    }
}

// Writes all the bytes.
fn send<K: Sink>(sink: &mut K, bytes: &[u8]) -> Result<(), Failed>
    ensures written { OnOk result (Appends (K.taken sink.old) (K.taken sink.new) bytes.now) }
    ensures front { OnErr result ((count : ℕ) × (count < length bytes.now) × Appends (K.taken sink.old)
        (K.taken sink.new) (take count bytes.now)) }
    ensures later { K.faults sink.old ≤ K.faults sink.new }
    ensures failed { OnErr result (Rose (K.faults sink.old) (K.faults sink.new)) }
{
    let mut sent = 0;
    while sent < bytes.len() {
        sent += sink.write(&bytes[sent..])?;
    }
    Ok(())
}
