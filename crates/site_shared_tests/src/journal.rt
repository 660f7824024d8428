//! The journal of a site, and the site that does it again.
use crate::visiting::Errand;
use packed_entries::{History, OpRef, PackedEntry, ReplyRef};
use pg_text::{BadPath, Failure, Text, resolve};
use site_core::{Given, Site};
use site_core_tests::{Word, put, replied, script_told, step};
use site_words::{Acted, AppStep, Op, Refusal};
use std::alloc::{AllocError, Global};

/// The id of the first session.
pub const FIRST: &str = "0000000000000000ade0b876903df1a0e56a5d4028bd8653";

/// Makes one session, one file, and a value that is kept for it, by five operations.
pub fn prepare(alloc: Global, site: &mut Site<Word>) -> Result<(), Failure<BadPath>> {
    script_told(
        alloc,
        site,
        "0 publish - /a.jsp 1\n0 begin - 0\n0 fresh 0\n0 offer 0 /a.jsp\n0 end 0 -\n",
    )?;
    Ok(())
}

/// The errand of each visit with this cookie: it publishes the file anew and looks for it.
pub fn errand(alloc: Global, cookie: &str) -> Result<Errand, Failure<BadPath>> {
    let cookie = Text::copy_of(alloc, cookie)?;
    let path = resolve(alloc, None, "/a.jsp")?;
    let edits = put(alloc, "/a.jsp", 1)?;
    Ok(Errand {
        cookie,
        edits,
        path,
    })
}

/// A line for each entry from this place on: its pass and what it was answered.
pub fn entries(alloc: Global, history: &History, from: usize) -> Result<String, AllocError> {
    let mut lines = String::new(alloc);
    for entry in history.iter().skip(from) {
        add_entry(alloc, &mut lines, entry)?;
    }
    Ok(lines)
}

fn add_entry(alloc: Global, lines: &mut String, entry: &PackedEntry) -> Result<(), AllocError> {
    let pass = entry.pass();
    let reply = replied(alloc, entry.reply())?;
    let line = format!(in alloc; "{pass} {reply}\n")?;
    lines.push_str(line.as_str())
}

/// How many entries of the history have the answers that a site gives which does them again, one
/// after the other.
pub fn agreeing(
    alloc: Global,
    again: &mut Site<Word>,
    history: &History,
) -> Result<u64, AllocError> {
    let mut count: u64 = 0;
    for entry in history.iter() {
        if agrees(alloc, again, entry)? {
            count = count.saturating_add(1);
        }
    }
    Ok(count)
}

fn agrees(alloc: Global, again: &mut Site<Word>, entry: &PackedEntry) -> Result<bool, AllocError> {
    let given = given(alloc, again, entry)?;
    Ok(replied(alloc, entry.reply())?.as_str() == given.as_str())
}

// What the site answers to the entry's operation.
fn given(alloc: Global, again: &mut Site<Word>, entry: &PackedEntry) -> Result<String, AllocError> {
    let op = op_of(alloc, entry.op())?;
    let outcome = step(alloc, again, entry.pass(), op)?;
    given_text(alloc, &outcome)
}

// The operation, to be done again.
fn op_of(alloc: Global, op: OpRef<'_>) -> Result<Op, AllocError> {
    Ok(match op {
        OpRef::Publish { base, edits } => Op::Publish {
            base,
            edits: edits.copy()?,
        },
        OpRef::Begin { cookie, moment } => Op::Begin {
            cookie: Text::copy_of(alloc, cookie)?,
            moment,
        },
        OpRef::App { request, step } => Op::App {
            request,
            step: step_of(step)?,
        },
        OpRef::Fresh { request } => Op::Fresh { request },
        OpRef::Fetch { request, path } => Op::Fetch {
            request,
            path: path.copy()?,
        },
        OpRef::Offer { request, path } => Op::Offer {
            request,
            path: path.copy()?,
        },
        OpRef::End { request, attrs } => Op::End {
            request,
            attrs: attrs.copy()?,
        },
        OpRef::Abandon { request } => Op::Abandon { request },
        OpRef::Snapshot { cookie } => Op::Snapshot {
            cookie: Text::copy_of(alloc, cookie)?,
        },
        OpRef::Roll => Op::Roll,
    })
}

// The step, to be done again.
fn step_of(step: &AppStep) -> Result<AppStep, AllocError> {
    match step {
        AppStep::Get(name) => Ok(AppStep::Get(name.copy()?)),
        AppStep::Set(name, value) => Ok(AppStep::Set(name.copy()?, value.copy()?)),
        AppStep::Remove(name) => Ok(AppStep::Remove(name.copy()?)),
        AppStep::Ensure(name, value) => Ok(AppStep::Ensure(name.copy()?, value.copy()?)),
        AppStep::All => Ok(AppStep::All),
    }
}

fn given_text(
    alloc: Global,
    outcome: &Option<Acted<Given<Word>, Refusal>>,
) -> Result<String, AllocError> {
    match outcome {
        Some(Acted::Did(given)) => replied(alloc, ReplyRef::of(&given.reply)),
        _ => String::from_str(alloc, "not done"),
    }
}

/// How many fetches of the history found something.
pub fn hits(history: &History) -> u64 {
    let mut count: u64 = 0;
    for entry in history.iter() {
        if is_hit(entry.reply()) {
            count = count.saturating_add(1);
        }
    }
    count
}

fn is_hit(reply: ReplyRef<'_>) -> bool {
    matches!(reply, ReplyRef::Fetched { hit: true })
}
