ghost use Rattle.std.specs.Prelude.{◌<◌, ◌≤◌, ◌^◌, length, OnErr, is_err};
ghost use Rattle.std.specs.Option.{option_copied};
ghost use Rattle.edges.specs.Faults.{Rose};
ghost use Rattle.http_out.specs.Sent.{Sent};
ghost use Rattle.site_journal.specs.Codes.{IsOption, of_option};
ghost use Rattle.site_journal.specs.Journal.{journal, of_talk, rolled};
ghost use Rattle.site_journal.specs.Reading.{HasCode, IsTalk};
ghost use Rattle.sink_buffer.specs.Buffer.{Writes};

use crate::entries::put_rolled;
use crate::opening::put_opening;
use crate::talk::Talk;
use crate::writing::{know_byte, put, put_byte, put_bytes, put_list};
use edges::{Failed, Sink};
use packed_entries::History;
use sink_buffer::SinkBuffer;
use site_words::Opening;

/// The mark at the beginning of a journal.
const MARK: &[u8] = b"PGJRNL1\n";

/// Writes the journal that ends a site: its opening, its history with a Roll behind it, and the
/// talk where there is one. It goes to the sink in pieces of 64 KiB, or longer ones where a part of
/// it is longer, and takes no memory.
pub fn write_journal<K: Sink>(
    sink: &mut K,
    opening: &Opening,
    history: &History,
    talk: Option<&Talk>,
) -> Result<(), Failed>
    requires { length history.now.items < 2 ^ 63 }
    ensures sent { Sent (K.taken sink.old) (K.taken sink.new)
        (journal opening.now (rolled history.now.items) (option_copied talk.entry)) (is_err result) }
    ensures can_be { HasCode opening.now (rolled history.now.items) (option_copied talk.entry) }
    ensures later { K.faults sink.old ≤ K.faults sink.new }
    ensures rose { OnErr result (Rose (K.faults sink.old) (K.faults sink.new)) }
{
    let mut buffer = SinkBuffer::new();
    put_journal(sink, &mut buffer, opening, history, talk);
    buffer.finish(sink)
}

// Writes a journal.
fn put_journal<K: Sink>(
    sink: &mut K,
    buffer: &mut SinkBuffer,
    opening: &Opening,
    history: &History,
    talk: Option<&Talk>,
)
    requires { length history.now.items < 2 ^ 63 }
    ensures writes { Writes (K.taken sink.old) (K.taken sink.new) (K.faults sink.old) (K.faults sink.new)
        buffer.old buffer.new (journal opening.now (rolled history.now.items) (option_copied talk.entry)) }
    ensures can_be { HasCode opening.now (rolled history.now.items) (option_copied talk.entry) }
{
    put(sink, buffer, MARK);
    put_opening(sink, buffer, opening);
    put_rolled(sink, buffer, history);
    put_optional(sink, buffer, talk);
}

// Writes a talk, where there is one.
fn put_optional<K: Sink>(sink: &mut K, buffer: &mut SinkBuffer, talk: Option<&Talk>)
    ensures writes { Writes (K.taken sink.old) (K.taken sink.new) (K.faults sink.old) (K.faults sink.new)
        buffer.old buffer.new (of_option of_talk (option_copied talk.entry)) }
    ensures can_be { IsOption IsTalk (option_copied talk.entry) }
{
    match talk {
        None => put_byte(sink, buffer, 0),
        Some(talk) => {
            put_byte(sink, buffer, 1);
            put_talk(sink, buffer, talk);
        }
    }
}

// Writes a talk.
fn put_talk<K: Sink>(sink: &mut K, buffer: &mut SinkBuffer, talk: &Talk)
    ensures writes { Writes (K.taken sink.old) (K.taken sink.new) (K.faults sink.old) (K.faults sink.new)
        buffer.old buffer.new (of_talk talk.now) }
    ensures can_be { IsTalk talk.now }
{
    know_byte(talk.ended);
    put_bytes(sink, buffer, talk.bytes.as_slice());
    put_list(sink, buffer, talk.moments.as_slice());
    put_bytes(sink, buffer, talk.answers.as_slice());
    put_byte(sink, buffer, talk.ended);
}
