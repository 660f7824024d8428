ghost use Rattle.std.specs.Prelude.{◌≡◌, ◌&&◌, true, Ok, Err, if◌then◌else◌};
ghost use Rattle.std.specs.Str.{bytes_eq, is_utf8};
ghost use Rattle.pg_text.specs.Failure.{Answers};
ghost use Rattle.editor.specs.Message.{delete_of, is_based, is_file_target, is_publish, message};
ghost use Rattle.editor.specs.Message.{named_path, posted, publish_for, put_of};

use crate::EditorFault;
use crate::naming::{file_path, is_file_target};
use http_in::Request;
use pg_text::{Failure, whole_number};
use source_tree::{Edit, FileText};
use std::alloc::Global;

const PUBLISH: &[u8] = b"/_editor/publish";

const BASED: &[u8] = b"/_editor/publish?base=";

/// What a request says to an editor.
#[derive(Drop)]
pub enum Message {
    /// Changes a file in the draft.
    Change(Edit),
    /// Publishes the draft, where there is a base only if that is the latest version.
    Publish(Option<u64>),
}

/// What a request says to an editor, or its fault.
#[tactic(auto, unfolding(crate::specs::Message::message))]
pub fn read_message(alloc: Global, request: &Request) -> Result<Message, Failure<EditorFault>>
    ensures { Answers (message request.now) result }
{
    let method = request.method.as_bytes();
    let target = request.target.as_bytes();
    if method == b"PUT".as_slice() && is_file_target(target) {
        return put_message(alloc, target, request.body.as_slice());
    }
    if method == b"DELETE".as_slice() && is_file_target(target) {
        return delete_message(alloc, target);
    }
    if method == b"POST".as_slice() {
        return post_message(target);
    }
    Err(Failure::Fault(EditorFault::BadMessage))
}

// What puts the file that a target names, with these bytes as its text.
fn put_message(alloc: Global, target: &[u8], body: &[u8]) -> Result<Message, Failure<EditorFault>>
    requires { is_file_target target.now ≡ true }
    ensures { Answers (put_of (named_path target.now) body.now) result }
{
    let path = file_path(alloc, target)?;
    let text = file_text(alloc, body)?;
    Ok(Message::Change(Edit::Put(path, text)))
}

// The text that bytes are.
fn file_text(alloc: Global, bytes: &[u8]) -> Result<FileText, Failure<EditorFault>>
    ensures { Answers (if is_utf8 bytes.now then Ok bytes.now else Err EditorFault.NotUtf8) result }
{
    match str::from_utf8(bytes) {
        Ok(text) => Ok(FileText::copy_of(alloc, text)?),
        Err(_) => Err(Failure::Fault(EditorFault::NotUtf8)),
    }
}

// What deletes the file that a target names.
fn delete_message(alloc: Global, target: &[u8]) -> Result<Message, Failure<EditorFault>>
    requires { is_file_target target.now ≡ true }
    ensures { Answers (delete_of (named_path target.now)) result }
{
    Ok(Message::Change(Edit::Delete(file_path(alloc, target)?)))
}

// What a target that was posted says.
#[tactic(auto, unfolding(crate::specs::Message::is_publish, crate::specs::Message::is_based), using(crate::proofs::TargetLemmas::based_is_long))]
fn post_message(target: &[u8]) -> Result<Message, Failure<EditorFault>>
    ensures { Answers (posted target.now) result }
{
    if target == PUBLISH {
        return Ok(Message::Publish(None));
    }
    if !target.starts_with(BASED) {
        return Err(Failure::Fault(EditorFault::BadMessage));
    }
    publish_for(whole_number(&target[BASED.len()..]))
}

// What publishes for this base, where it is a number.
fn publish_for(base: Option<u64>) -> Result<Message, Failure<EditorFault>>
    ensures { Answers (publish_for base) result }
{
    match base {
        Some(base) => Ok(Message::Publish(Some(base))),
        None => Err(Failure::Fault(EditorFault::BadMessage)),
    }
}
