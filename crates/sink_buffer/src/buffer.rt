ghost use Rattle.std.specs.Prelude.{◌≡◌, ◌≤◌, ℕ, List, [], ◌++◌, true, false, Option, OnErr};
ghost use Rattle.std.specs.Prelude.{is_err};
ghost use Rattle.edges.specs.Faults.{Rose};
ghost use Rattle.http_out.specs.Sent.{Sent};
ghost use Rattle.sink_buffer.specs.Buffer.{SentBut, Writes};

use arrayvec::ArrayVec;
use edges::{Failed, Sink};
use http_out::write;
use std::marker::Model;

/// The most bytes that are gathered.
const PIECE_BYTES: usize = 65_536;

/// Bytes that a sink is to take behind what it took of a text, and whether it has failed in that
/// text. It takes no memory but its own 64 KiB. Once the sink has failed it is given nothing more.
#[derive(Drop)]
pub struct SinkBuffer {
    bytes: ArrayVec<u8, PIECE_BYTES>,
    failed: bool,
}

impl Model for SinkBuffer {
    ghost use Rattle.sink_buffer.specs.Buffer.{Buffer};

    ghost Value = { Buffer };

    ghost view = { λ s. record { bytes = s.bytes.items; failed = s.failed } };
}

impl SinkBuffer {
    pub fn new() -> Self
        ensures { result ≡ record { bytes = []; failed = false } }
    {
        SinkBuffer {
            bytes: ArrayVec::new(),
            failed: false,
        }
    }

    /// Writes these bytes. What was gathered goes to the sink where they have no room beside it,
    /// and so do they where they have none at all.
    pub fn write<K: Sink>(&mut self, sink: &mut K, bytes: &[u8])
        ensures { Writes (K.taken sink.old) (K.taken sink.new) (K.faults sink.old) (K.faults sink.new)
            self.old self.new bytes.now }
    {
        if self.keep(bytes) {
            return;
        }
        self.hand_on(sink);
        if !self.keep(bytes) {
            self.pass(sink, bytes);
        }
    }

    /// Hands on what is still gathered, and says whether the sink has taken the whole text.
    pub fn finish<K: Sink>(mut self, sink: &mut K) -> Result<(), Failed>
        ensures sent { (old : Option (List ℕ)) (text : List ℕ) →
            SentBut old (K.taken sink.old) text self → Sent old (K.taken sink.new) text (is_err result) }
        ensures later { K.faults sink.old ≤ K.faults sink.new }
        ensures rose { (before : ℕ) → before ≤ K.faults sink.old →
            (self.failed ≡ true → Rose before (K.faults sink.old)) →
            OnErr result (Rose before (K.faults sink.new)) }
    {
        self.hand_on(sink);
        if self.failed { Err(Failed) } else { Ok(()) }
    }

    // Gathers these bytes where they have room, and says whether they had.
    fn keep(&mut self, bytes: &[u8]) -> bool
        ensures kept { result ≡ true → self.new ≡ record self.old { bytes = self.old.bytes ++ bytes.now } }
        ensures same { result ≡ false → self.new ≡ self.old }
    {
        self.bytes.try_extend_from_slice(bytes).is_ok()
    }

    // Gives the sink these bytes, where none are gathered.
    fn pass<K: Sink>(&mut self, sink: &mut K, bytes: &[u8])
        requires { self.old.bytes ≡ [] }
        ensures { Writes (K.taken sink.old) (K.taken sink.new) (K.faults sink.old) (K.faults sink.new)
            self.old self.new bytes.now }
    {
        write(sink, &mut self.failed, bytes);
    }

    // Gives the sink what was gathered.
    fn hand_on<K: Sink>(&mut self, sink: &mut K)
        ensures written { Writes (K.taken sink.old) (K.taken sink.new) (K.faults sink.old) (K.faults sink.new)
            self.old self.new [] }
        ensures empty { self.new.bytes ≡ [] }
    {
        write(sink, &mut self.failed, self.bytes.as_slice());
        self.bytes.clear();
    }
}
