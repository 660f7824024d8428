ghost use Rattle.std.specs.Prelude.{◌≡◌};
ghost use Rattle.site_journal.specs.Journal.{of_counts, of_file, of_opening, of_session};
ghost use Rattle.site_journal.specs.Reading.{HasCounts, IsFile, IsOpening, IsSession};
ghost use Rattle.sink_buffer.specs.Buffer.{Writes};
ghost use Rattle.source_tree.specs.Order.{IsInOrder};

use crate::values::put_attrs;
use crate::writing::{Item, know_byte, put, put_list, put_number, put_text};
use edges::Sink;
use sink_buffer::SinkBuffer;
use site_words::{KeptSession, Opening};
use source_tree::{File, Tree};

impl Item for File {
    ghost text = { λ file. of_file file };

    ghost can_be = { λ file. IsFile file };

    fn put<K: Sink>(&self, sink: &mut K, buffer: &mut SinkBuffer) {
        put_text(sink, buffer, self.path.as_str());
        put_number(sink, buffer, self.stamp);
        put_text(sink, buffer, self.text.as_str());
    }
}

impl Item for KeptSession {
    ghost text = { λ session. of_session session };

    ghost can_be = { λ session. IsSession session };

    fn put<K: Sink>(&self, sink: &mut K, buffer: &mut SinkBuffer) {
        put_number(sink, buffer, self.number);
        put_number(sink, buffer, self.used);
        put_attrs(sink, buffer, &self.attrs);
    }
}

/// Writes an opening.
pub(crate) fn put_opening<K: Sink>(sink: &mut K, buffer: &mut SinkBuffer, opening: &Opening)
    ensures writes { Writes (K.taken sink.old) (K.taken sink.new) (K.faults sink.old) (K.faults sink.new)
        buffer.old buffer.new (of_opening opening.now) }
    ensures can_be { IsOpening opening.now }
{
    put(sink, buffer, &opening.seed);
    put_counts(sink, buffer, opening);
    put_attrs(sink, buffer, &opening.app);
    put_list(sink, buffer, files(&opening.tree));
    put_list(sink, buffer, opening.sessions.as_slice());
}

// The files of a tree.
fn files(tree: &Tree) -> &[File]
    ensures files { result.now ≡ tree.now }
    ensures order { IsInOrder tree.now }
{
    tree.iter().as_slice()
}

// Writes the counts of an opening.
fn put_counts<K: Sink>(sink: &mut K, buffer: &mut SinkBuffer, opening: &Opening)
    ensures writes { Writes (K.taken sink.old) (K.taken sink.new) (K.faults sink.old) (K.faults sink.new)
        buffer.old buffer.new (of_counts opening.now) }
    ensures can_be { HasCounts opening.now }
{
    know_byte(opening.passes);
    put_number(sink, buffer, opening.limit);
    put_number(sink, buffer, opening.passes as u64);
    put_number(sink, buffer, opening.idle);
    put_number(sink, buffer, opening.version);
    put_number(sink, buffer, opening.begins);
    put_number(sink, buffer, opening.freshes);
    put_number(sink, buffer, opening.moment);
}
