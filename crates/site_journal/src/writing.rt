ghost use Rattle.std.specs.Prelude.{ℕ, ◌<◌, List, [], ◌∷◌, flat_map};
ghost use Rattle.site_journal.specs.Codes.{AreBytes, IsInt, IsList, IsNumber, IsOption, IsText};
ghost use Rattle.site_journal.specs.Codes.{of_bytes, of_int, of_list, of_number, of_option};
ghost use Rattle.site_journal.specs.Codes.{of_truth};
ghost use Rattle.site_words.specs.Trees.{Each};
ghost use Rattle.sink_buffer.specs.Buffer.{Writes};

use edges::Sink;
use sink_buffer::SinkBuffer;

/// What a journal has lists of.
pub(crate) trait Item {
    ghost text: { Self → List ℕ };
    /// That it has such a text.
    ghost can_be: { Self → Type 0 };

    /// Writes this item.
    fn put<K: Sink>(&self, sink: &mut K, buffer: &mut SinkBuffer)
        ensures writes { Writes (K.taken sink.old) (K.taken sink.new) (K.faults sink.old) (K.faults sink.new)
            buffer.old buffer.new (text self.now) }
        ensures can_be { can_be self.now };
}

impl Item for u64 {
    ghost text = { λ number. of_number number };

    ghost can_be = { λ number. IsNumber number };

    fn put<K: Sink>(&self, sink: &mut K, buffer: &mut SinkBuffer) {
        put_number(sink, buffer, *self);
    }
}

/// Writes these bytes.
pub(crate) fn put<K: Sink>(sink: &mut K, buffer: &mut SinkBuffer, bytes: &[u8])
    ensures { Writes (K.taken sink.old) (K.taken sink.new) (K.faults sink.old) (K.faults sink.new)
        buffer.old buffer.new bytes.now }
{
    buffer.write(sink, bytes);
}

/// Writes one byte.
pub(crate) fn put_byte<K: Sink>(sink: &mut K, buffer: &mut SinkBuffer, byte: u8)
    ensures { Writes (K.taken sink.old) (K.taken sink.new) (K.faults sink.old) (K.faults sink.new)
        buffer.old buffer.new (byte ∷ []) }
{
    put(sink, buffer, &[byte]);
}

/// Knows that a byte is below 256.
pub(crate) fn know_byte(byte: u8)
    ensures { byte < 256 }
{
    let _byte = byte;
}

/// Writes a number.
pub(crate) fn put_number<K: Sink>(sink: &mut K, buffer: &mut SinkBuffer, number: u64)
    ensures writes { Writes (K.taken sink.old) (K.taken sink.new) (K.faults sink.old) (K.faults sink.new)
        buffer.old buffer.new (of_number number) }
    ensures can_be { IsNumber number }
{
    put(sink, buffer, &number.to_be_bytes());
}

/// Writes an integer.
pub(crate) fn put_int<K: Sink>(sink: &mut K, buffer: &mut SinkBuffer, integer: &i64)
    ensures writes { Writes (K.taken sink.old) (K.taken sink.new) (K.faults sink.old) (K.faults sink.new)
        buffer.old buffer.new (of_int integer.now) }
    ensures can_be { IsInt integer.now }
{
    put(sink, buffer, &integer.to_be_bytes());
}

/// Writes a truth value.
pub(crate) fn put_truth<K: Sink>(sink: &mut K, buffer: &mut SinkBuffer, truth: bool)
    ensures { Writes (K.taken sink.old) (K.taken sink.new) (K.faults sink.old) (K.faults sink.new)
        buffer.old buffer.new (of_truth truth) }
{
    if truth {
        put_byte(sink, buffer, 1);
    } else {
        put_byte(sink, buffer, 0);
    }
}

/// Writes bytes with their length.
pub(crate) fn put_bytes<K: Sink>(sink: &mut K, buffer: &mut SinkBuffer, bytes: &[u8])
    ensures writes { Writes (K.taken sink.old) (K.taken sink.new) (K.faults sink.old) (K.faults sink.new)
        buffer.old buffer.new (of_bytes bytes.now) }
    ensures can_be { AreBytes bytes.now }
{
    put_number(sink, buffer, bytes.len() as u64);
    put(sink, buffer, bytes);
}

/// Writes a text with its length.
pub(crate) fn put_text<K: Sink>(sink: &mut K, buffer: &mut SinkBuffer, text: &str)
    ensures writes { Writes (K.taken sink.old) (K.taken sink.new) (K.faults sink.old) (K.faults sink.new)
        buffer.old buffer.new (of_bytes text.now) }
    ensures can_be { IsText text.now }
{
    put_bytes(sink, buffer, text.as_bytes());
}

/// Writes an optional number.
pub(crate) fn put_option<K: Sink>(sink: &mut K, buffer: &mut SinkBuffer, number: Option<u64>)
    ensures writes { Writes (K.taken sink.old) (K.taken sink.new) (K.faults sink.old) (K.faults sink.new)
        buffer.old buffer.new (of_option of_number number) }
    ensures can_be { IsOption IsNumber number }
{
    match number {
        None => put_byte(sink, buffer, 0),
        Some(number) => {
            put_byte(sink, buffer, 1);
            put_number(sink, buffer, number);
        }
    }
}

/// Writes a list.
pub(crate) fn put_list<K: Sink, T: Item>(sink: &mut K, buffer: &mut SinkBuffer, items: &[T])
    ensures writes { Writes (K.taken sink.old) (K.taken sink.new) (K.faults sink.old) (K.faults sink.new)
        buffer.old buffer.new (of_list T.text items.now) }
    ensures can_be { IsList T.can_be items.now }
{
    put_number(sink, buffer, items.len() as u64);
    put_items(sink, buffer, items);
}

// Writes the items of a list.
fn put_items<K: Sink, T: Item>(sink: &mut K, buffer: &mut SinkBuffer, items: &[T])
    ensures writes { Writes (K.taken sink.old) (K.taken sink.new) (K.faults sink.old) (K.faults sink.new)
        buffer.old buffer.new (flat_map T.text items.now) }
    ensures can_be { Each T.can_be items.now }
{
    for item in items {
        item.put(sink, buffer);
    }
}
