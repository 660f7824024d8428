ghost use Rattle.std.specs.Prelude.{◌≡◌, ◌++◌, IfOk, OnOk};
ghost use Rattle.load_gen.specs.Messages.{get_text, message_text, put_head, put_text};

use pg_text::Text;
use std::alloc::{AllocError, Global};

/// A message to a site.
#[derive(Drop)]
pub enum Message {
    /// Puts a file with this path and text into the draft.
    Put(Text, Text),
    /// Publishes the draft.
    Publish,
    /// Asks for a page by this target.
    Get(Text),
}

/// Adds the bytes of a message.
pub(crate) fn add_message(
    alloc: Global,
    bytes: &mut Vec<u8>,
    message: &Message,
) -> Result<(), AllocError>
    ensures { OnOk result (bytes.new.items ≡ bytes.old.items ++ message_text message.now) }
{
    let text = message_text(alloc, message)?;
    bytes.extend_from_slice(&text)?;
    Ok(())
}

// The bytes of a message.
#[tactic(auto, unfolding(crate::specs::Messages::publish_text))]
fn message_text(alloc: Global, message: &Message) -> Result<Vec<u8>, AllocError>
    ensures { IfOk result (λ bytes. bytes.items ≡ message_text message.now) }
{
    match message {
        Message::Put(path, text) => put_text(alloc, path, text),
        Message::Publish => {
            Vec::from_slice(alloc, b"POST /_editor/publish HTTP/1.1\r\nHost: x\r\n\r\n")
        }
        Message::Get(target) => get_text(alloc, target),
    }
}

// The bytes of a message that puts a file.
#[tactic(auto, unfolding(crate::specs::Messages::put_text))]
fn put_text(alloc: Global, path: &Text, text: &Text) -> Result<Vec<u8>, AllocError>
    ensures { IfOk result (λ bytes. bytes.items ≡ put_text path.now text.now) }
{
    let mut bytes = put_head(alloc, path, text.len())?;
    bytes.extend_from_slice(b"\r\n\r\n")?;
    bytes.extend_from_slice(text.as_bytes())?;
    Ok(bytes)
}

// The head of a message that puts a file of this length, without its end.
#[tactic(auto, unfolding(crate::specs::Messages::put_head))]
fn put_head(alloc: Global, path: &Text, length: usize) -> Result<Vec<u8>, AllocError>
    ensures { IfOk result (λ bytes. bytes.items ≡ put_head path.now length) }
{
    let mut bytes = Vec::from_slice(alloc, b"PUT /_editor/files")?;
    bytes.extend_from_slice(path.as_bytes())?;
    bytes.extend_from_slice(b" HTTP/1.1\r\nHost: x\r\nContent-Length: ")?;
    bytes.extend_from_slice(length.to_string(alloc)?.as_bytes())?;
    Ok(bytes)
}

// The bytes of a message that asks for a page.
#[tactic(auto, unfolding(crate::specs::Messages::get_text))]
fn get_text(alloc: Global, target: &Text) -> Result<Vec<u8>, AllocError>
    ensures { IfOk result (λ bytes. bytes.items ≡ get_text target.now) }
{
    let mut bytes = Vec::from_slice(alloc, b"GET ")?;
    bytes.extend_from_slice(target.as_bytes())?;
    bytes.extend_from_slice(b" HTTP/1.1\r\nHost: x\r\n\r\n")?;
    Ok(bytes)
}
