ghost use Rattle.std.specs.Prelude.{◌≡◌, ◌<◌, ◌≤◌, ◌+◌, ◌*◌, ◌++◌, ◌∷◌, [], ℕ, List, true, length};
ghost use Rattle.std.specs.Prelude.{drop, OnOk, OnErr};
ghost use Rattle.std.specs.declared.option.Option.{Option};
ghost use Rattle.out_buffer.specs.Held.{Comes};
ghost use Rattle.out_buffer.specs.Laws.{IsWithin};
ghost use Rattle.out_buffer.specs.ReadBuffer.{writer_at};
ghost use Rattle.out_buffer.specs.ReadStream.{HasBegun, Streams};
ghost use Rattle.out_buffer.specs.Writer.{Writer, front_pieces, pieces_over, written};

use crate::stream::Stream;
use edges::Sink;
use pg_text::Failure;
use pg_value::RunFault;
use std::alloc::AllocError;

/// The most bytes of a buffer's first room: what an allocator has at hand, and enough for most
/// small pages.
const FIRST_ROOM: usize = 1_024;

/// The buffer of a page, with its settings.
#[derive(Drop)]
pub(crate) struct Buffer {
    pub(crate) bytes: Vec<u8>,
    /// The size in bytes, or None where there is no buffer.
    pub(crate) size: Option<u32>,
    /// Whether the buffer is flushed where it is full.
    pub(crate) autoflush: bool,
}

impl Buffer {
    /// Puts bytes behind the output.
    pub(crate) fn put<K: Sink>(
        &mut self,
        stream: &mut Stream,
        sink: &mut K,
        bytes: &[u8],
    ) -> Result<(), Failure<RunFault>>
        requires { IsWithin self.old.size self.old.bytes.items }
        ensures comes { (start : Option (List ℕ)) (before : ℕ) (pieces : List (List ℕ)) (count : ℕ)
            (kept : List (List ℕ)) → Streams start before stream.old (K.taken sink.old) (K.faults sink.old) pieces
            → Comes (written self.old.size bytes.now (writer_at self.old pieces count kept)) result
            (λ (after : Writer). (after ≡ writer_at self.new after.pieces count kept) × Streams start
            before stream.new (K.taken sink.new) (K.faults sink.new) after.pieces) }
        ensures within { IsWithin self.new.size self.new.bytes.items }
        ensures same { OnOk result (stream.new
            ≡ record stream.old { committed = stream.new.committed; failed = stream.new.failed }) }
        ensures err { OnErr result ((self.new.bytes.items ≡ self.old.bytes.items) × (stream.new
            ≡ stream.old) × (sink.new ≡ sink.old)) }
        ensures settings { (self.new.size ≡ self.old.size) × (self.new.autoflush ≡ self.old.autoflush) }
        ensures later { K.faults sink.old ≤ K.faults sink.new }
    {
        let Some(size) = self.size else {
            stream.commit(*self.bytes.allocator(), sink, bytes)?;
            return Ok(());
        };
        let size = size as usize;
        if bytes.len() <= size - self.bytes.len() {
            keep(&mut self.bytes, size, bytes)?;
            return Ok(());
        }
        if !self.autoflush {
            return Err(Failure::Fault(RunFault::BufferOverflow));
        }
        overflow(&mut self.bytes, size, stream, sink, bytes)?;
        Ok(())
    }
}

// Puts bytes behind those of a buffer of this size, which they fit. The first take room for more at
// once.
#[inline(always)]
fn keep(buffer: &mut Vec<u8>, size: usize, bytes: &[u8]) -> Result<(), AllocError>
    ensures items { OnOk result (buffer.new.items ≡ buffer.old.items ++ bytes.now) }
    ensures len { OnOk result (length buffer.new.items ≡ length buffer.old.items + length bytes.now) }
    ensures err { OnErr result (buffer.new.items ≡ buffer.old.items) }
{
    if buffer.capacity() == 0 {
        buffer.reserve(size.min(FIRST_ROOM))?;
    }
    buffer.extend_from_slice(bytes)
}

// Commits what is over the buffer in pieces of its size. What is left of the bytes is the only part
// of them that is copied, but for those that fill the first piece.
fn overflow<K: Sink>(
    buffer: &mut Vec<u8>,
    size: usize,
    stream: &mut Stream,
    sink: &mut K,
    bytes: &[u8],
) -> Result<(), AllocError>
    requires within { length buffer.old.items ≤ size }
    requires over { size < length buffer.old.items + length bytes.now }
    requires some { 0 < size }
    ensures ok { let total = buffer.old.items ++ bytes.now in OnOk result (buffer.new.items
        ≡ drop (pieces_over size (length total) * size) total) }
    ensures sent { (start : Option (List ℕ)) (before : ℕ) (pieces : List (List ℕ)) →
        Streams start before stream.old (K.taken sink.old) (K.faults sink.old) pieces
        → let total = buffer.old.items ++ bytes.now in OnOk result
        (Streams start before stream.new (K.taken sink.new) (K.faults sink.new)
        (pieces ++ front_pieces (pieces_over size (length total)) size total)) }
    ensures same { OnOk result (stream.new ≡ record stream.old {
      committed = stream.new.committed;
      failed =
          stream.new.failed;
    }) }
    ensures err { OnErr result ((buffer.new.items ≡ buffer.old.items) × (stream.new ≡ stream.old) ×
        (sink.new ≡ sink.old)) }
    ensures later { K.faults sink.old ≤ K.faults sink.new }
{
    buffer.try_reserve(size - buffer.len())?;
    stream.begin(*buffer.allocator(), sink)?;
    let (front, mut rest) = bytes.split_at(size - buffer.len());
    let Ok(()) = buffer.extend_from_slice(front) else {
        unreachable!()
    };
    stream.send(sink, buffer);
    buffer.clear();
    while rest.len() > size {
        let (piece, behind) = rest.split_at(size);
        stream.send(sink, piece);
        rest = behind;
    }
    let Ok(()) = buffer.extend_from_slice(rest) else {
        unreachable!()
    };
    Ok(())
}
