ghost use Rattle.std.specs.Prelude.{◌≡◌, ◌<◌, ◌≤◌, [], ◌∷◌, ℕ, List, false, length, OnOk, OnErr};
ghost use Rattle.std.specs.Prelude.{if◌then◌else◌};
ghost use Rattle.std.specs.Option.{ForSome};
ghost use Rattle.std.specs.declared.option.Option.{Option};
ghost use Rattle.pg_text.specs.Failure.{Answers};
ghost use Rattle.out_buffer.specs.Held.{Comes, Finished, Stands, fresh, response_of};
ghost use Rattle.out_buffer.specs.Laws.{IsWithin};
ghost use Rattle.out_buffer.specs.ReadBuffer.{writer_at};
ghost use Rattle.out_buffer.specs.ReadStream.{Streams};
ghost use Rattle.out_buffer.specs.Writer.{Writer as Written, around, body_answer, cleared};
ghost use Rattle.out_buffer.specs.Writer.{empty_writer, flush, innermost, last_of, placed, put};
ghost use Rattle.out_buffer.specs.Writer.{with_bodies, with_body, without_body};

use crate::bodies::Bodies;
use crate::buffer::Buffer;
use crate::stream::Stream;
use edges::{Failed, Sink};
use http_out::Head;
use pg_text::{Failure, Text};
use pg_value::RunFault;
use std::alloc::{AllocError, Global};
use std::marker::Model;

/// The most bytes that may be put in one page run.
pub const MAX_OUTPUT_BYTES: usize = 16_777_216;

/// The most bytes of a text that is made or kept.
const MAX_TEXT_BYTES: usize = 1_048_560;

/// The output of a page run on its way to a sink, which is lent to each call that may write.
///
/// What is committed goes out at once: the head with the first piece, and each piece as a chunk.
/// The rest stays in the buffer, and what is put while a body is kept stays in that body. Where the
/// sink fails nothing more is written in this response, and the page runs on all the same.
#[derive(Drop)]
pub struct Writer {
    stream: Stream,
    buffer: Buffer,
    count: usize,
    kept: Bodies,
}

impl Model for Writer {
    ghost use Rattle.std.specs.Prelude.{◌≤◌};
    ghost use Rattle.out_buffer.specs.Held.{Held};
    ghost use Rattle.out_buffer.specs.declared.writer.TheConstants.{MAX_OUTPUT_BYTES};

    ghost Value = { Held };

    ghost use Rattle.out_buffer.specs.Laws.{IsWithin};

    ghost view = { λ w. record {
      head = w.stream.head;
      shown = w.stream.shown;
      committed = w.stream.committed;
      failed = w.stream.failed;
      buffer = w.buffer.bytes.items;
      size = w.buffer.size;
      autoflush = w.buffer.autoflush;
      count = w.count;
      kept = w.kept;
    } };

    ghost invariant = { λ w. IsWithin w.buffer.size w.buffer.bytes.items × (w.count ≤ MAX_OUTPUT_BYTES) };
}

impl Writer {
    /// The writer of a response that begins. The body isn't shown to HEAD.
    pub fn new(alloc: Global, head: Head, size: Option<u32>, autoflush: bool, shown: bool) -> Self
        requires { ForSome size (λ s. 0 < s) }
        ensures value { result ≡ fresh head size autoflush shown }
        ensures stands { (taken : Option (List ℕ)) (faults : ℕ) →
            Stands taken faults result taken faults (empty_writer size autoflush) }
    {
        Writer {
            stream: Stream {
                head,
                shown,
                committed: false,
                failed: false,
            },
            buffer: Buffer {
                bytes: Vec::new(alloc),
                size,
                autoflush,
            },
            count: 0,
            kept: Bodies::none(alloc),
        }
    }

    /// Puts a text into the innermost kept body, or else behind the output. X19 where more than
    /// [`MAX_OUTPUT_BYTES`] would be put, and X10 where the buffer overflows and isn't flushed.
    pub fn put<K: Sink>(&mut self, sink: &mut K, text: &str) -> Result<(), Failure<RunFault>>
        ensures comes { (start : Option (List ℕ)) (before : ℕ) (writer : Written) →
            Stands start before self.old (K.taken sink.old) (K.faults sink.old) writer →
            Comes (put text.now writer) result (Stands start before self.new (K.taken sink.new) (K.faults sink.new)) }
        ensures head { (self.new.head ≡ self.old.head) × (self.new.shown ≡ self.old.shown) }
        ensures err { OnErr result ((self.new ≡ self.old) × (sink.new ≡ sink.old)) }
        ensures later { K.faults sink.old ≤ K.faults sink.new }
    {
        if text.len() > MAX_OUTPUT_BYTES - self.count {
            return Err(Failure::Fault(RunFault::OutputTooLong));
        }
        place(
            &mut self.stream,
            &mut self.buffer,
            &mut self.kept,
            sink,
            text,
        )?;
        self.count += text.len();
        Ok(())
    }

    /// Keeps what is put from here on, until the body is taken.
    pub fn start_body(&mut self) -> Result<(), AllocError>
        ensures ok { OnOk result (self.new ≡ record self.old { kept = [] ∷ self.old.kept }) }
        ensures stands { (start : Option (List ℕ)) (before : ℕ) (taken : Option (List ℕ)) (faults : ℕ)
            (writer : Written) → Stands start before self.old taken faults writer →
            OnOk result (Stands start before self.new taken faults (with_body writer)) }
        ensures err { OnErr result (self.new ≡ self.old) }
    {
        self.kept.start()
    }

    /// Takes the innermost kept body, without a copy. X20 where it is too large. It isn't kept any
    /// more in any case.
    pub fn take_body(&mut self) -> Result<Text, Failure<RunFault>>
        requires { 0 < length self.old.kept }
        ensures answer { Answers (body_answer (innermost self.old.kept)) result }
        ensures taken { self.new ≡ record self.old { kept = around self.old.kept } }
        ensures stands { (start : Option (List ℕ)) (before : ℕ) (taken : Option (List ℕ)) (faults : ℕ)
            (writer : Written) → Stands start before self.old taken faults writer →
            Stands start before self.new taken faults (without_body writer) }
    {
        let body = self.kept.take();
        if body.len() > MAX_TEXT_BYTES {
            return Err(Failure::Fault(RunFault::ValueTooLarge));
        }
        Ok(Text::new(body)?)
    }

    /// The number of kept bodies.
    pub fn bodies(&self) -> usize
        ensures { result ≡ length self.now.kept }
    {
        self.kept.len()
    }

    /// Drops the kept bodies inside the outermost so many.
    pub fn drop_bodies(&mut self, left: usize)
        ensures left { self.new ≡ record self.old { kept = last_of left self.old.kept } }
        ensures stands { (start : Option (List ℕ)) (before : ℕ) (taken : Option (List ℕ)) (faults : ℕ)
            (writer : Written) → Stands start before self.old taken faults writer →
            Stands start before self.new taken faults (with_bodies left writer) }
    {
        self.kept.truncate(left);
    }

    /// Empties the buffer and drops the kept bodies. X9 where something was committed, and then all
    /// stands as it was.
    pub fn clear(&mut self) -> Result<(), RunFault>
        ensures answer { result ≡ (if self.old.committed then Err RunFault.Committed else Ok tt) }
        ensures ok { OnOk result (self.new ≡ record self.old { buffer = []; kept = [] }) }
        ensures stands { (start : Option (List ℕ)) (before : ℕ) (taken : Option (List ℕ)) (faults : ℕ)
            (writer : Written) → Stands start before self.old taken faults writer →
            OnOk result (Stands start before self.new taken faults (cleared writer)) }
        ensures err { OnErr result (self.new ≡ self.old) }
    {
        if self.stream.committed {
            return Err(RunFault::Committed);
        }
        self.buffer.bytes.clear();
        self.kept.clear();
        Ok(())
    }

    /// Commits the buffer as one piece, unless it is empty or a body is kept.
    pub fn flush<K: Sink>(&mut self, sink: &mut K) -> Result<(), AllocError>
        ensures stands { (start : Option (List ℕ)) (before : ℕ) (writer : Written) →
            Stands start before self.old (K.taken sink.old) (K.faults sink.old) writer →
            OnOk result (Stands start before self.new (K.taken sink.new) (K.faults sink.new) (flush writer)) }
        ensures head { (self.new.head ≡ self.old.head) × (self.new.shown ≡ self.old.shown) }
        ensures err { OnErr result ((self.new ≡ self.old) × (sink.new ≡ sink.old)) }
        ensures later { K.faults sink.old ≤ K.faults sink.new }
    {
        if !self.kept.is_empty() {
            return Ok(());
        }
        let alloc = self.kept.allocator();
        self.stream.commit(alloc, sink, &self.buffer.bytes)?;
        self.buffer.bytes.clear();
        Ok(())
    }

    /// Gives the response another head.
    pub fn set_head(&mut self, head: Head)
        requires { self.old.committed ≡ false }
        ensures head { self.new ≡ record self.old { head = head } }
        ensures stands { (start : Option (List ℕ)) (before : ℕ) (taken : Option (List ℕ)) (faults : ℕ)
            (writer : Written) → Stands start before self.old taken faults writer →
            Stands start before self.new taken faults writer }
    {
        self.stream.head = head;
    }

    /// Lets the response begin the session with this id.
    pub fn set_cookie(&mut self, id: Text)
        requires { self.old.committed ≡ false }
        ensures head { self.new ≡ record self.old { head = record self.old.head { set_cookie = Some id } } }
        ensures stands { (start : Option (List ℕ)) (before : ℕ) (taken : Option (List ℕ)) (faults : ℕ)
            (writer : Written) → Stands start before self.old taken faults writer →
            Stands start before self.new taken faults writer }
    {
        self.stream.head.set_cookie = Some(id);
    }

    /// Whether something was committed.
    pub fn committed(&self) -> bool
        ensures { result ≡ self.now.committed }
    {
        self.stream.committed
    }

    /// The bytes in the buffer.
    pub fn rest(&self) -> &[u8]
        ensures { result.now ≡ self.now.buffer }
    {
        &self.buffer.bytes
    }

    /// Ends the response, which may break off. Where nothing was committed it is written whole;
    /// else what is left is a last chunk, and the end stands behind it, unless it breaks off.
    /// Memory may run out only where nothing was committed.
    pub fn finish<K: Sink>(self, sink: &mut K, broken: bool) -> Result<(), Failure<Failed>>
        ensures finished { (start : Option (List ℕ)) (before : ℕ) (writer : Written) →
            Stands start before self (K.taken sink.old) (K.faults sink.old) writer →
            Finished start before self.shown (response_of self.head writer broken) (K.taken sink.new)
            (K.faults sink.new) result }
        ensures later { K.faults sink.old ≤ K.faults sink.new }
    {
        let Writer {
            mut stream,
            buffer,
            count: _,
            kept,
        } = self;
        stream.finish(kept.allocator(), sink, &buffer.bytes, broken)
    }
}

// Puts a text into the innermost kept body, or else behind the output.
fn place<K: Sink>(
    stream: &mut Stream,
    buffer: &mut Buffer,
    kept: &mut Bodies,
    sink: &mut K,
    text: &str,
) -> Result<(), Failure<RunFault>>
    requires { IsWithin buffer.old.size buffer.old.bytes.items }
    ensures comes { (start : Option (List ℕ)) (before : ℕ) (pieces : List (List ℕ)) (count : ℕ) →
        Streams start before stream.old (K.taken sink.old) (K.faults sink.old) pieces
        → Comes (placed kept.old text.now (writer_at buffer.old pieces count kept.old)) result
        (λ (after : Written). (after ≡ writer_at buffer.new after.pieces count kept.new) × Streams start
        before stream.new (K.taken sink.new) (K.faults sink.new) after.pieces) }
    ensures within { IsWithin buffer.new.size buffer.new.bytes.items }
    ensures same { OnOk result (stream.new ≡ record stream.old {
      committed = stream.new.committed;
      failed =
          stream.new.failed;
    }) }
    ensures err { OnErr result ((kept.new ≡ kept.old) × (buffer.new.bytes.items ≡ buffer.old.bytes.items)
        × (stream.new ≡ stream.old) × (sink.new ≡ sink.old)) }
    ensures settings { (buffer.new.size ≡ buffer.old.size) × (buffer.new.autoflush ≡ buffer.old.autoflush) }
    ensures later { K.faults sink.old ≤ K.faults sink.new }
{
    if kept.is_empty() {
        return buffer.put(stream, sink, text.as_bytes());
    }
    kept.push_str(text)?;
    Ok(())
}
