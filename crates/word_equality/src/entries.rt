// Edits, operations, replies and entries. What is_same answers is the clause of Same (same.rt).
use crate::lists::are_same;
use crate::read::{same_op, same_reply};
use crate::same::Same;
use packed_entries::{OpRef, PackedEntry, ReplyRef};
use site_words::{AppReply, AppStep, Entry, Op, Reply};
use source_tree::{Edit, Edits};

impl Same for Edit {
    fn is_same(&self, other: &Edit) -> bool {
        match (self, other) {
            (Edit::Put(path, text), Edit::Put(other_path, other_text)) => {
                path.is_same(other_path) && text.is_same(other_text)
            }
            (Edit::Delete(path), Edit::Delete(other_path)) => path.is_same(other_path),
            _ => false,
        }
    }
}

impl Same for Edits {
    fn is_same(&self, other: &Edits) -> bool {
        are_same(self.as_slice(), other.as_slice())
    }
}

impl Same for AppStep {
    fn is_same(&self, other: &AppStep) -> bool {
        match (self, other) {
            (AppStep::Get(name), AppStep::Get(other_name)) => name.is_same(other_name),
            (AppStep::Set(name, value), AppStep::Set(other_name, other_value)) => {
                name.is_same(other_name) && value.is_same(other_value)
            }
            (AppStep::Remove(name), AppStep::Remove(other_name)) => name.is_same(other_name),
            (AppStep::Ensure(name, value), AppStep::Ensure(other_name, other_value)) => {
                name.is_same(other_name) && value.is_same(other_value)
            }
            (AppStep::All, AppStep::All) => true,
            _ => false,
        }
    }
}

impl Same for AppReply {
    fn is_same(&self, other: &AppReply) -> bool {
        match (self, other) {
            (AppReply::Value(value), AppReply::Value(other_value)) => value.is_same(other_value),
            (AppReply::Done, AppReply::Done) | (AppReply::Created, AppReply::Created) => true,
            (
                AppReply::Large { weight },
                AppReply::Large {
                    weight: other_weight,
                },
            ) => weight == other_weight,
            _ => false,
        }
    }
}

impl Same for Op {
    fn is_same(&self, other: &Op) -> bool {
        same_op(OpRef::of(self), OpRef::of(other))
    }
}

impl Same for Reply {
    fn is_same(&self, other: &Reply) -> bool {
        same_reply(ReplyRef::of(self), ReplyRef::of(other))
    }
}

impl Same for Entry {
    fn is_same(&self, other: &Entry) -> bool {
        self.pass == other.pass && self.op.is_same(&other.op) && self.reply.is_same(&other.reply)
    }
}

impl Same for PackedEntry {
    fn is_same(&self, other: &PackedEntry) -> bool {
        self.pass() == other.pass()
            && same_op(self.op(), other.op())
            && same_reply(self.reply(), other.reply())
    }
}
