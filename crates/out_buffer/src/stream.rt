ghost use Rattle.std.specs.Prelude.{◌≡◌, ◌<◌, ◌≤◌, ◌++◌, ◌∷◌, [], ℕ, List, true, false, length};
ghost use Rattle.std.specs.Prelude.{OnOk, OnErr};
ghost use Rattle.std.specs.declared.option.Option.{Option};
ghost use Rattle.http_out.specs.Response.{Response, end_mark, last_chunk, wire};
ghost use Rattle.out_buffer.specs.Held.{Finished};
ghost use Rattle.out_buffer.specs.ReadStream.{HasBegun, Streams};
ghost use Rattle.out_buffer.specs.Streamed.{HasTaken};
ghost use Rattle.out_buffer.specs.Writer.{piece_of};

use edges::{Failed, Sink};
use http_out::{Head, write_chunk, write_end, write_head, write_whole};
use pg_text::Failure;
use std::alloc::{AllocError, Global};

/// A response that goes out in chunks, behind its head.
#[derive(Drop)]
pub(crate) struct Stream {
    pub(crate) head: Head,
    /// Whether the body is shown, as it isn't for HEAD.
    pub(crate) shown: bool,
    /// Whether something was committed, so that the head is written.
    pub(crate) committed: bool,
    /// Whether the sink failed in this response. Then nothing more is written.
    pub(crate) failed: bool,
}

impl Stream {
    /// Commits these bytes as one piece, where there are any.
    pub(crate) fn commit<K: Sink>(
        &mut self,
        alloc: Global,
        sink: &mut K,
        bytes: &[u8],
    ) -> Result<(), AllocError>
        ensures sent { (start : Option (List ℕ)) (before : ℕ) (pieces : List (List ℕ)) →
            Streams start before self.old (K.taken sink.old) (K.faults sink.old) pieces →
            OnOk result (Streams start before self.new (K.taken sink.new) (K.faults sink.new)
            (pieces ++ piece_of bytes.now)) }
        ensures same { OnOk result (self.new ≡ record self.old {
          committed = self.new.committed;
          failed =
              self.new.failed;
        }) }
        ensures err { OnErr result ((self.new ≡ self.old) × (sink.new ≡ sink.old)) }
        ensures later { K.faults sink.old ≤ K.faults sink.new }
    {
        if bytes.is_empty() {
            return Ok(());
        }
        self.begin(alloc, sink)?;
        self.send(sink, bytes);
        Ok(())
    }

    /// Writes the head, unless it was written before. Only the head takes memory.
    pub(crate) fn begin<K: Sink>(&mut self, alloc: Global, sink: &mut K) -> Result<(), AllocError>
        ensures sent { (start : Option (List ℕ)) (before : ℕ) (pieces : List (List ℕ)) →
            Streams start before self.old (K.taken sink.old) (K.faults sink.old) pieces →
            OnOk result (HasBegun start before self.new (K.taken sink.new) (K.faults sink.new) pieces) }
        ensures same { OnOk result (self.new ≡ record self.old { committed = true; failed = self.new.failed }) }
        ensures err { OnErr result ((self.new ≡ self.old) × (sink.new ≡ sink.old)) }
        ensures later { K.faults sink.old ≤ K.faults sink.new }
    {
        if self.committed {
            return Ok(());
        }
        write_head(alloc, sink, &mut self.failed, &self.head)?;
        self.committed = true;
        Ok(())
    }

    /// Writes a piece as a chunk, behind the head.
    pub(crate) fn send<K: Sink>(&mut self, sink: &mut K, piece: &[u8])
        requires { 0 < length piece.now }
        ensures sent { (start : Option (List ℕ)) (before : ℕ) (pieces : List (List ℕ)) →
            HasBegun start before self.old (K.taken sink.old) (K.faults sink.old) pieces →
            HasBegun start before self.new (K.taken sink.new) (K.faults sink.new) (pieces ++ piece.now ∷ []) }
        ensures same { self.new ≡ record self.old { failed = self.new.failed } }
        ensures later { K.faults sink.old ≤ K.faults sink.new }
    {
        if self.shown {
            write_chunk(sink, &mut self.failed, piece);
        }
    }

    /// Ends the response behind what is left of it. Where nothing was committed it is written
    /// whole.
    pub(crate) fn finish<K: Sink>(
        &mut self,
        alloc: Global,
        sink: &mut K,
        rest: &[u8],
        broken: bool,
    ) -> Result<(), Failure<Failed>>
        ensures finished { (start : Option (List ℕ)) (before : ℕ) (pieces : List (List ℕ)) →
            Streams start before self.old (K.taken sink.old) (K.faults sink.old) pieces →
            Finished start before self.old.shown
            (record { head = self.old.head; pieces = pieces; rest = rest.now; broken = broken })
            (K.taken sink.new) (K.faults sink.new) result }
        ensures later { K.faults sink.old ≤ K.faults sink.new }
    {
        self.write_left(alloc, sink, rest, broken)?;
        if self.failed {
            return Err(Failure::Fault(Failed));
        }
        Ok(())
    }

    // Writes what is left of the response. Memory may run out only where nothing was committed.
    fn write_left<K: Sink>(
        &mut self,
        alloc: Global,
        sink: &mut K,
        rest: &[u8],
        broken: bool,
    ) -> Result<(), AllocError>
        ensures taken { (start : Option (List ℕ)) (before : ℕ) (pieces : List (List ℕ)) →
            Streams start before self.old (K.taken sink.old) (K.faults sink.old) pieces →
            let response : Response = record {
              head = self.old.head;
              pieces = pieces;
              rest = rest.now;
              broken =
                  broken;
            } in OnOk result (HasTaken start before (wire response self.old.shown) self.new.failed
            (K.taken sink.new) (K.faults sink.new)) }
        ensures err { OnErr result ((self.old.committed ≡ false) × (self.new ≡ self.old) × (sink.new
            ≡ sink.old)) }
        ensures later { K.faults sink.old ≤ K.faults sink.new }
    {
        if !self.committed {
            write_whole(alloc, sink, &mut self.failed, &self.head, rest, self.shown)?;
            return Ok(());
        }
        if self.shown && !broken {
            write_rest(sink, &mut self.failed, rest);
        }
        Ok(())
    }
}

// Writes what is left of a body in chunks, and its end.
fn write_rest<K: Sink>(sink: &mut K, failed: &mut bool, rest: &[u8])
    ensures taken { (start : Option (List ℕ)) (before : ℕ) (text : List ℕ) →
        HasTaken start before text failed.old (K.taken sink.old) (K.faults sink.old) →
        HasTaken start before (text ++ (last_chunk rest.now ++ end_mark)) failed.new (K.taken sink.new)
        (K.faults sink.new) }
    ensures later { K.faults sink.old ≤ K.faults sink.new }
{
    if !rest.is_empty() {
        write_chunk(sink, failed, rest);
    }
    write_end(sink, failed);
}
