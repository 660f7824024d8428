ghost use Rattle.std.specs.Prelude.{map};
ghost use Rattle.pg_value.specs.Datum.{entries_of, items_of};
ghost use Rattle.pg_value.specs.Value.{datum_of, entry_of};
ghost use Rattle.site_journal.specs.Journal.{of_attrs, of_datum, of_entries, of_items};
ghost use Rattle.site_journal.specs.Reading.{AreAttrs, AreEntries, AreItems, IsDatum};
ghost use Rattle.sink_buffer.specs.Buffer.{Writes};

use crate::writing::{put_byte, put_int, put_number, put_text, put_truth};
use edges::Sink;
use pg_text::Text;
use pg_value::{Attrs, Record, Value};
use sink_buffer::SinkBuffer;

// Writes a value.
#[cycle(values)]
#[tactic(auto, using(pg_value::proofs::Sizes::sizes, pg_value::proofs::Lengths::lengths))]
pub(crate) fn put_value<K: Sink>(sink: &mut K, buffer: &mut SinkBuffer, value: &Value)
    ensures writes { Writes (K.taken sink.old) (K.taken sink.new) (K.faults sink.old) (K.faults sink.new)
        buffer.old buffer.new (of_datum (datum_of value.now)) }
    ensures can_be { IsDatum (datum_of value.now) }
{
    match value {
        Value::Null => put_byte(sink, buffer, 0),
        Value::Bool(truth) => {
            put_byte(sink, buffer, 1);
            put_truth(sink, buffer, *truth);
        }
        Value::Int(number) => {
            put_byte(sink, buffer, 2);
            put_int(sink, buffer, number);
        }
        Value::Text(text) => {
            put_byte(sink, buffer, 3);
            put_text(sink, buffer, text.as_str());
        }
        Value::List(items) => {
            put_byte(sink, buffer, 4);
            put_number(sink, buffer, items.len() as u64);
            put_items(sink, buffer, items.as_slice());
        }
        Value::Rec(entries) => {
            entries.keys_rise();
            put_byte(sink, buffer, 5);
            put_number(sink, buffer, entries.len() as u64);
            put_record(sink, buffer, entries);
        }
    }
}

// Writes the items of a list.
#[cycle(values)]
#[tactic(auto, using(pg_value::proofs::Sizes::sizes, pg_value::proofs::Lengths::lengths))]
fn put_items<K: Sink>(sink: &mut K, buffer: &mut SinkBuffer, items: &[Value])
    ensures writes { Writes (K.taken sink.old) (K.taken sink.new) (K.faults sink.old) (K.faults sink.new)
        buffer.old buffer.new (of_items (items_of (map datum_of items.now))) }
    ensures can_be { AreItems (items_of (map datum_of items.now)) }
{
    for item in items {
        put_value(sink, buffer, item);
    }
}

// Writes the entries of a record.
#[cycle(values)]
#[tactic(auto, using(pg_value::proofs::Sizes::sizes, pg_value::proofs::Lengths::lengths))]
fn put_record<K: Sink>(sink: &mut K, buffer: &mut SinkBuffer, entries: &Record)
    ensures writes { Writes (K.taken sink.old) (K.taken sink.new) (K.faults sink.old) (K.faults sink.new)
        buffer.old buffer.new (of_entries (entries_of entries.now)) }
    ensures can_be { AreEntries (entries_of entries.now) }
{
    let mut place = 0;
    while place < entries.len() {
        let next = entries.entries_from(place);
        put_keys(sink, buffer, next);
        place += next.len();
    }
}

// Writes keys, each with what stands under it.
#[cycle(values)]
#[tactic(auto, using(pg_value::proofs::Sizes::sizes, pg_value::proofs::Lengths::lengths))]
fn put_keys<K: Sink>(sink: &mut K, buffer: &mut SinkBuffer, entries: &[(Text, Value)])
    ensures writes { Writes (K.taken sink.old) (K.taken sink.new) (K.faults sink.old) (K.faults sink.new)
        buffer.old buffer.new (of_entries (entries_of (map entry_of entries.now))) }
    ensures can_be { AreEntries (entries_of (map entry_of entries.now)) }
{
    for entry in entries {
        put_text(sink, buffer, entry.0.as_str());
        put_value(sink, buffer, &entry.1);
    }
}

/// Writes attributes.
pub(crate) fn put_attrs<K: Sink>(sink: &mut K, buffer: &mut SinkBuffer, attrs: &Attrs)
    ensures writes { Writes (K.taken sink.old) (K.taken sink.new) (K.faults sink.old) (K.faults sink.new)
        buffer.old buffer.new (of_attrs attrs.now) }
    ensures can_be { AreAttrs attrs.now }
{
    put_number(sink, buffer, attrs.len() as u64);
    put_keys(sink, buffer, attrs.as_slice());
}
