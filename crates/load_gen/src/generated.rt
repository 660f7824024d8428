ghost use Rattle.std.specs.Prelude.{◌≡◌, ◌≤◌, ◌<◌, ◌++◌, IfOk, OnOk, map};
ghost use Rattle.std.specs.List.{range_with_len};
ghost use Rattle.load_gen.specs.Messages.{asked, first_part, generated, message_text, page_put};
ghost use Rattle.load_gen.specs.Messages.{part_put, round, rounds, sent};

use crate::Message;
use crate::message::add_message;
use crate::naming::{PARTS, page_path, page_target, page_text, part_path, part_text};
use std::alloc::{AllocError, Global};

/// The most pages of a generated site.
pub const MAX_PAGES: u32 = 1_000;

/// How often pages are asked for after each publishing.
const ASKED: u32 = 4;

/// The messages for so many pages, joined.
#[tactic(auto, unfolding(crate::specs::Messages::generated), using(crate::proofs::SentLemmas::sent_all))]
pub fn make(alloc: Global, number: u32) -> Result<Vec<u8>, AllocError>
    requires some { 1 ≤ number }
    requires few { number ≤ MAX_PAGES }
    ensures { IfOk result (λ bytes. bytes.items ≡ generated number) }
{
    let mut bytes = Vec::new(alloc);
    add_pages(alloc, &mut bytes, number)?;
    add_parts(alloc, &mut bytes)?;
    add_message(alloc, &mut bytes, &Message::Publish)?;
    add_rounds(alloc, &mut bytes, number)?;
    Ok(bytes)
}

// Adds a message for each page, which puts it.
fn add_pages(alloc: Global, bytes: &mut Vec<u8>, number: u32) -> Result<(), AllocError>
    ensures { OnOk result (bytes.new.items ≡ bytes.old.items ++ sent (map page_put (range_with_len 0 number))) }
{
    for page in 0..number {
        let message = page_put(alloc, page)?;
        add_message(alloc, bytes, &message)?;
    }
    Ok(())
}

// The message that puts a page.
fn page_put(alloc: Global, page: u32) -> Result<Message, AllocError>
    ensures { IfOk result (λ message. message ≡ page_put page) }
{
    Ok(Message::Put(page_path(alloc, page)?, page_text(alloc, page)?))
}

// Adds a message for each part, which puts it for the first time.
fn add_parts(alloc: Global, bytes: &mut Vec<u8>) -> Result<(), AllocError>
    ensures { OnOk result (bytes.new.items ≡ bytes.old.items ++ sent (map first_part (range_with_len 0 10))) }
{
    for part in 0..PARTS {
        add_part(alloc, bytes, part, 0)?;
    }
    Ok(())
}

// Adds a message that puts a part.
fn add_part(alloc: Global, bytes: &mut Vec<u8>, part: u32, change: u32) -> Result<(), AllocError>
    ensures { OnOk result (bytes.new.items ≡ bytes.old.items ++ message_text (part_put part change)) }
{
    let message = Message::Put(part_path(alloc, part)?, part_text(alloc, change)?);
    add_message(alloc, bytes, &message)?;
    Ok(())
}

// Adds the rounds, one after the other.
fn add_rounds(alloc: Global, bytes: &mut Vec<u8>, number: u32) -> Result<(), AllocError>
    requires some { 1 ≤ number }
    requires few { number ≤ MAX_PAGES }
    ensures { OnOk result (bytes.new.items ≡ bytes.old.items ++ sent (rounds number number)) }
{
    for change in 0..number {
        add_round(alloc, bytes, number, change)?;
    }
    Ok(())
}

// Adds the messages of a round: a part is changed and published, and pages are asked for.
fn add_round(alloc: Global, bytes: &mut Vec<u8>, number: u32, change: u32) -> Result<(), AllocError>
    requires some { 1 ≤ number }
    requires few { change < MAX_PAGES }
    ensures { OnOk result (bytes.new.items ≡ bytes.old.items ++ sent (round number change)) }
{
    add_part(alloc, bytes, change % PARTS, change + 1)?;
    add_message(alloc, bytes, &Message::Publish)?;
    add_asked(alloc, bytes, number, change)?;
    Ok(())
}

// Adds the messages of a round that ask for pages.
fn add_asked(alloc: Global, bytes: &mut Vec<u8>, number: u32, change: u32) -> Result<(), AllocError>
    requires some { 1 ≤ number }
    requires few { change < MAX_PAGES }
    ensures { OnOk result (bytes.new.items ≡ bytes.old.items
        ++ sent (map (asked number change) (range_with_len 0 4))) }
{
    for turn in 0..ASKED {
        let message = asked(alloc, number, change, turn)?;
        add_message(alloc, bytes, &message)?;
    }
    Ok(())
}

// The message that asks for a page at a turn of a round.
fn asked(alloc: Global, number: u32, change: u32, turn: u32) -> Result<Message, AllocError>
    requires some { 1 ≤ number }
    requires few { change < MAX_PAGES }
    requires turns { turn < ASKED }
    ensures { IfOk result (λ message. message ≡ asked number change turn) }
{
    let page = (7 * change + 3 * turn) % number;
    Ok(Message::Get(page_target(alloc, page, change)?))
}
