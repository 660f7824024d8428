ghost use Rattle.std.specs.Prelude.{◌≡◌, ◌<◌, ◌^◌, flat_map, length};
ghost use Rattle.packed_entries.specs.Refs.{op_in, reply_in};
ghost use Rattle.site_journal.specs.Codes.{IsList, of_bytes, of_list};
ghost use Rattle.site_journal.specs.Journal.{kind_of, of_answer, of_edit, of_entry, of_op};
ghost use Rattle.site_journal.specs.Journal.{of_reply, of_step, rolled};
ghost use Rattle.site_journal.specs.Reading.{HasParts, IsAnswer, IsEdit, IsOp, IsPath, IsReply};
ghost use Rattle.site_journal.specs.Reading.{IsStep};
ghost use Rattle.site_words.specs.Trees.{Each};
ghost use Rattle.sink_buffer.specs.Buffer.{Writes};

use crate::values::{put_attrs, put_value};
use crate::writing::{
    Item, know_byte, put, put_byte, put_list, put_number, put_option, put_text, put_truth,
};
use edges::Sink;
use packed_entries::{History, OpRef, PackedEntry, ReplyRef};
use pg_text::Path;
use sink_buffer::SinkBuffer;
use site_words::{AppReply, AppStep};
use source_tree::Edit;

/// The entry of a Roll of pass 0.
const ROLL: [u8; 2] = [0, 10];

/// Writes a history with a Roll behind it.
pub(crate) fn put_rolled<K: Sink>(sink: &mut K, buffer: &mut SinkBuffer, history: &History)
    requires { length history.now.items < 2 ^ 63 }
    ensures writes { Writes (K.taken sink.old) (K.taken sink.new) (K.faults sink.old) (K.faults sink.new)
        buffer.old buffer.new (of_list of_entry (rolled history.now.items)) }
    ensures can_be { IsList HasParts (rolled history.now.items) }
{
    put_number(sink, buffer, history.len() as u64 + 1);
    put_entries(sink, buffer, history);
    put(sink, buffer, &ROLL);
}

// Writes the entries of a history.
fn put_entries<K: Sink>(sink: &mut K, buffer: &mut SinkBuffer, history: &History)
    ensures writes { Writes (K.taken sink.old) (K.taken sink.new) (K.faults sink.old) (K.faults sink.new)
        buffer.old buffer.new (flat_map of_entry history.now.items) }
    ensures can_be { Each HasParts history.now.items }
{
    for entry in history.iter() {
        entry.put(sink, buffer);
    }
}

impl Item for PackedEntry {
    ghost text = { λ entry. of_entry entry };

    ghost can_be = { λ entry. HasParts entry };

    fn put<K: Sink>(&self, sink: &mut K, buffer: &mut SinkBuffer) {
        let pass = self.pass();
        let op = self.op();
        know_byte(pass);
        put(sink, buffer, &[pass, kind_of(op)]);
        put_op(sink, buffer, op);
        put_reply(sink, buffer, self.reply());
    }
}

// The kind of an operation.
fn kind_of(op: OpRef<'_>) -> u8
    ensures { result ≡ kind_of (op_in op.entry) }
{
    match op {
        OpRef::Publish { base: _, edits: _ } => 1,
        OpRef::Begin {
            cookie: _,
            moment: _,
        } => 2,
        OpRef::App {
            request: _,
            step: _,
        } => 3,
        OpRef::Fresh { request: _ } => 4,
        OpRef::Fetch {
            request: _,
            path: _,
        } => 5,
        OpRef::Offer {
            request: _,
            path: _,
        } => 6,
        OpRef::End {
            request: _,
            attrs: _,
        } => 7,
        OpRef::Abandon { request: _ } => 8,
        OpRef::Snapshot { cookie: _ } => 9,
        OpRef::Roll => 10,
    }
}

// Writes the parts of an operation.
fn put_op<K: Sink>(sink: &mut K, buffer: &mut SinkBuffer, op: OpRef<'_>)
    ensures writes { Writes (K.taken sink.old) (K.taken sink.new) (K.faults sink.old) (K.faults sink.new)
        buffer.old buffer.new (of_op (op_in op.entry)) }
    ensures can_be { IsOp (op_in op.entry) }
{
    match op {
        OpRef::Publish { base, edits } => {
            put_option(sink, buffer, base);
            put_list(sink, buffer, edits.as_slice());
        }
        OpRef::Begin { cookie, moment } => {
            put_text(sink, buffer, cookie);
            put_number(sink, buffer, moment);
        }
        OpRef::App { request, step } => {
            put_number(sink, buffer, request);
            put_step(sink, buffer, step);
        }
        OpRef::Fetch { request, path } => {
            put_number(sink, buffer, request);
            put_text(sink, buffer, path.as_str());
        }
        OpRef::Offer { request, path } => {
            put_number(sink, buffer, request);
            put_text(sink, buffer, path.as_str());
        }
        OpRef::End { request, attrs } => {
            put_number(sink, buffer, request);
            put_attrs(sink, buffer, attrs);
        }
        OpRef::Fresh { request } | OpRef::Abandon { request } => put_number(sink, buffer, request),
        OpRef::Snapshot { cookie } => put_text(sink, buffer, cookie),
        OpRef::Roll => {}
    }
}

// Writes the parts of a reply.
fn put_reply<K: Sink>(sink: &mut K, buffer: &mut SinkBuffer, reply: ReplyRef<'_>)
    ensures writes { Writes (K.taken sink.old) (K.taken sink.new) (K.faults sink.old) (K.faults sink.new)
        buffer.old buffer.new (of_reply (reply_in reply.entry)) }
    ensures can_be { IsReply (reply_in reply.entry) }
{
    match reply {
        ReplyRef::Published { version, dirty } => {
            put_number(sink, buffer, version);
            put_list(sink, buffer, dirty.as_slice());
        }
        ReplyRef::Begun {
            request,
            version,
            session,
        } => {
            put_number(sink, buffer, request);
            put_number(sink, buffer, version);
            put_option(sink, buffer, session);
        }
        ReplyRef::App(answer) => put_answer(sink, buffer, answer),
        ReplyRef::Made { session } => put_number(sink, buffer, session),
        ReplyRef::Fetched { hit } => put_truth(sink, buffer, hit),
        ReplyRef::Offered { kept } => put_truth(sink, buffer, kept),
        ReplyRef::Snapped { version, session } => {
            put_number(sink, buffer, version);
            put_option(sink, buffer, session);
        }
        ReplyRef::Ended | ReplyRef::Dropped | ReplyRef::Rolled => {}
    }
}

impl Item for Edit {
    ghost text = { λ edit. of_edit edit };

    ghost can_be = { λ edit. IsEdit edit };

    fn put<K: Sink>(&self, sink: &mut K, buffer: &mut SinkBuffer) {
        match self {
            Edit::Put(path, text) => {
                put_byte(sink, buffer, 0);
                put_text(sink, buffer, path.as_str());
                put_text(sink, buffer, text.as_str());
            }
            Edit::Delete(path) => {
                put_byte(sink, buffer, 1);
                put_text(sink, buffer, path.as_str());
            }
        }
    }
}

impl Item for Path {
    ghost text = { λ path. of_bytes path };

    ghost can_be = { λ path. IsPath path };

    fn put<K: Sink>(&self, sink: &mut K, buffer: &mut SinkBuffer) {
        put_text(sink, buffer, self.as_str());
    }
}

// Writes a step on the application's attributes.
fn put_step<K: Sink>(sink: &mut K, buffer: &mut SinkBuffer, step: &AppStep)
    ensures writes { Writes (K.taken sink.old) (K.taken sink.new) (K.faults sink.old) (K.faults sink.new)
        buffer.old buffer.new (of_step step.now) }
    ensures can_be { IsStep step.now }
{
    match step {
        AppStep::Get(name) => {
            put_byte(sink, buffer, 0);
            put_text(sink, buffer, name.as_str());
        }
        AppStep::Set(name, value) => {
            put_byte(sink, buffer, 1);
            put_text(sink, buffer, name.as_str());
            put_value(sink, buffer, value);
        }
        AppStep::Remove(name) => {
            put_byte(sink, buffer, 2);
            put_text(sink, buffer, name.as_str());
        }
        AppStep::Ensure(name, value) => {
            put_byte(sink, buffer, 3);
            put_text(sink, buffer, name.as_str());
            put_value(sink, buffer, value);
        }
        AppStep::All => put_byte(sink, buffer, 4),
    }
}

// Writes what a step is told.
fn put_answer<K: Sink>(sink: &mut K, buffer: &mut SinkBuffer, answer: &AppReply)
    ensures writes { Writes (K.taken sink.old) (K.taken sink.new) (K.faults sink.old) (K.faults sink.new)
        buffer.old buffer.new (of_answer answer.now) }
    ensures can_be { IsAnswer answer.now }
{
    match answer {
        AppReply::Value(value) => {
            put_byte(sink, buffer, 0);
            put_value(sink, buffer, value);
        }
        AppReply::Done => put_byte(sink, buffer, 1),
        AppReply::Created => put_byte(sink, buffer, 2),
        AppReply::Large { weight } => {
            put_byte(sink, buffer, 3);
            put_number(sink, buffer, *weight);
        }
    }
}
