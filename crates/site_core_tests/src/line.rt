use crate::word::Word;
use packed_entries::{OpRef, PackedEntry, ReplyRef};
use pg_text::Path;
use pg_value::{Attrs, Value};
use site_core::{Gift, Given};
use site_words::{Acted, AppReply, AppStep, Refusal};
use source_tree::Tree;
use std::alloc::{AllocError, Global};

/// What an outcome is told as.
pub fn outcome_text(
    alloc: Global,
    outcome: &Option<Acted<Given<Word>, Refusal>>,
) -> Result<String, AllocError> {
    match outcome {
        None => String::from_str(alloc, "unfit"),
        Some(Acted::NoMemory) => String::from_str(alloc, "no memory"),
        Some(Acted::Refused(refusal)) => refused(alloc, refusal),
        Some(Acted::Did(given)) => done(alloc, given),
    }
}

fn refused(alloc: Global, refusal: &Refusal) -> Result<String, AllocError> {
    match refusal {
        Refusal::Stale { latest } => format!(in alloc; "stale {latest}"),
        Refusal::TreeTooLarge(fault) => format!(in alloc; "large {fault:?}"),
        Refusal::Busy { holder } => format!(in alloc; "busy {holder}"),
        Refusal::JournalFull { weight, promised } => {
            format!(in alloc; "full {weight} {promised}")
        }
    }
}

fn done(alloc: Global, given: &Given<Word>) -> Result<String, AllocError> {
    let mut line = replied(alloc, ReplyRef::of(&given.reply))?;
    match &given.gift {
        Gift::Nothing | Gift::Old(_, _) => {}
        Gift::Made(_) => line.push_str(" made")?,
        Gift::Id(id) => {
            line.push_str(" ")?;
            line.push_str(id.as_str())?;
        }
        Gift::Start(_, attrs) => add_number(alloc, &mut line, attrs)?,
        Gift::Picture(_, app, attrs) => {
            add_number(alloc, &mut line, app)?;
            add_number(alloc, &mut line, attrs)?;
        }
    }
    Ok(line)
}

// Adds the number among the attributes, and `-` where there is none.
fn add_number(alloc: Global, line: &mut String, attrs: &Attrs) -> Result<(), AllocError> {
    line.push_str(" ")?;
    match attrs.get("n") {
        Some(value) => line.push_str(number(alloc, value)?.as_str()),
        None => line.push_str("-"),
    }
}

fn number(alloc: Global, value: &Value) -> Result<String, AllocError> {
    match value {
        Value::Int(number) => format!(in alloc; "{number}"),
        Value::Null => String::from_str(alloc, "null"),
        _ => String::from_str(alloc, "other"),
    }
}

/// What a reply says.
pub fn replied(alloc: Global, reply: ReplyRef<'_>) -> Result<String, AllocError> {
    match reply {
        ReplyRef::Published { version, dirty } => {
            let count = dirty.len();
            format!(in alloc; "version {version}, {count} dirty")
        }
        ReplyRef::Begun {
            request,
            version,
            session,
        } => {
            let session = session_text(alloc, session)?;
            format!(in alloc; "begun {request} {version} {session}")
        }
        ReplyRef::App(reply) => app_told(alloc, reply),
        ReplyRef::Made { session } => format!(in alloc; "made {session}"),
        ReplyRef::Fetched { hit } => format!(in alloc; "hit {hit}"),
        ReplyRef::Offered { kept } => format!(in alloc; "kept {kept}"),
        ReplyRef::Ended => String::from_str(alloc, "ended"),
        ReplyRef::Dropped => String::from_str(alloc, "dropped"),
        ReplyRef::Snapped { version, session } => {
            let session = session_text(alloc, session)?;
            format!(in alloc; "snapped {version} {session}")
        }
        ReplyRef::Rolled => String::from_str(alloc, "rolled"),
    }
}

// The number of the session, and `-` for none.
fn session_text(alloc: Global, session: Option<u64>) -> Result<String, AllocError> {
    match session {
        Some(number) => format!(in alloc; "{number}"),
        None => String::from_str(alloc, "-"),
    }
}

fn app_told(alloc: Global, reply: &AppReply) -> Result<String, AllocError> {
    match reply {
        AppReply::Value(value) => number(alloc, value),
        AppReply::Done => String::from_str(alloc, "done"),
        AppReply::Created => String::from_str(alloc, "created"),
        AppReply::Large { weight } => format!(in alloc; "large {weight}"),
    }
}

/// The version that put the file with this path, and its length, in the tree of a picture.
pub fn file_text(
    alloc: Global,
    outcome: &Option<Acted<Given<Word>, Refusal>>,
    path: &Path,
) -> Result<String, AllocError> {
    match outcome {
        Some(Acted::Did(given)) => match &given.gift {
            Gift::Picture(tree, _, _) => stamped(alloc, tree, path),
            _ => String::from_str(alloc, "no picture"),
        },
        _ => outcome_text(alloc, outcome),
    }
}

fn stamped(alloc: Global, tree: &Tree, path: &Path) -> Result<String, AllocError> {
    match tree.get(path) {
        Some(file) => {
            let (stamp, bytes) = (file.stamp, file.text.as_str().len());
            format!(in alloc; "{stamp} {bytes}")
        }
        None => String::from_str(alloc, "none"),
    }
}

/// The pass, the operation and the reply of an entry.
pub fn entry_text(alloc: Global, entry: &PackedEntry) -> Result<String, AllocError> {
    let (pass, verb) = (entry.pass(), verb(entry.op()));
    let reply = replied(alloc, entry.reply())?;
    format!(in alloc; "{pass} {verb} {reply}")
}

fn verb(op: OpRef<'_>) -> &'static str {
    match op {
        OpRef::Publish { .. } => "publish",
        OpRef::Begin { .. } => "begin",
        OpRef::App { step, .. } => step_verb(step),
        OpRef::Fresh { .. } => "fresh",
        OpRef::Fetch { .. } => "fetch",
        OpRef::Offer { .. } => "offer",
        OpRef::End { .. } => "end",
        OpRef::Abandon { .. } => "abandon",
        OpRef::Snapshot { .. } => "picture",
        OpRef::Roll => "roll",
    }
}

fn step_verb(step: &AppStep) -> &'static str {
    match step {
        AppStep::Get(_) => "get",
        AppStep::Set(_, _) => "set",
        AppStep::Remove(_) => "remove",
        AppStep::Ensure(_, _) => "ensure",
        AppStep::All => "all",
    }
}
