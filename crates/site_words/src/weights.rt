ghost use Rattle.std.specs.Prelude.{◌≡◌, ◌+◌, ◌-◌, ◌^◌, ◌≤◌, nat_lt, min, length, ℕ};
ghost use Rattle.site_words.specs.declared.limits.TheConstants.{OP_WEIGHT};
ghost use Rattle.site_words.specs.Weights.{answer_weight, capped, edit_weight, edits_weight};
ghost use Rattle.site_words.specs.Weights.{names_weight, op_weight, reply_weight, step_weight};
ghost use Rattle.site_words.specs.Weights.{text_weight, weight_held, weight_with};

use crate::OP_WEIGHT;
use crate::words::{AppReply, AppStep, Entry, Op, Reply};
use pg_text::Names;
use source_tree::{Edit, Edits};

fn text_weight(bytes: usize) -> u64
    ensures { result ≡ capped (16 + bytes) }
{
    (bytes as u64).saturating_add(16)
}

// The weight of an edit, or None where 64 bits don't hold it.
fn edit_weight(edit: &Edit) -> Option<u64>
    ensures { result ≡ weight_held (edit_weight edit.now) }
{
    match edit {
        Edit::Put(path, text) => {
            text_weight(path.as_bytes().len()).checked_add(text_weight(text.len()))
        }
        Edit::Delete(path) => Some(text_weight(path.as_bytes().len())),
    }
}

// The weight of edits together, or None where 64 bits don't hold it.
fn edits_weight(edits: &Edits) -> Option<u64>
    ensures { result ≡ weight_held (edits_weight edits.now) }
{
    let mut weight: u64 = 0;
    for edit in edits.as_slice() {
        weight = weight.checked_add(edit_weight(edit)?)?;
    }
    Some(weight)
}

// The weight of names together, or None where 64 bits don't hold it.
fn names_weight(names: &Names) -> Option<u64>
    ensures { result ≡ weight_held (names_weight names.now) }
{
    let mut weight: u64 = 0;
    for name in names.as_slice() {
        weight = weight.checked_add(text_weight(name.as_bytes().len()))?;
    }
    Some(weight)
}

/// What the entry of a publishing weighs, with the reply that names what it made old. None where 64
/// bits don't hold the weight, which is then over every limit.
pub fn publishing_weight(edits: &Edits, dirty: &Names) -> Option<u64>
    ensures { result ≡ weight_held (OP_WEIGHT + edits_weight edits.now + names_weight dirty.now) }
{
    edits_weight(edits)?
        .checked_add(OP_WEIGHT)?
        .checked_add(names_weight(dirty)?)
}

/// The weight of a step, which stops at the greatest `u64`. The entry of a step weighs 64 more, and
/// its answer.
pub fn step_weight(step: &AppStep) -> u64
    ensures { result ≡ capped (step_weight step.now) }
{
    match step {
        AppStep::Get(name) => text_weight(name.len()),
        AppStep::Set(name, value) => {
            text_weight(name.len()).saturating_add(pg_value::weight(value))
        }
        AppStep::Remove(name) => text_weight(name.len()),
        AppStep::Ensure(name, value) => {
            text_weight(name.len()).saturating_add(pg_value::weight(value))
        }
        AppStep::All => 0,
    }
}

// A weight that stops at the greatest `u64`.
fn stopped(weight: Option<u64>) -> u64
    ensures { (n : ℕ) → weight ≡ weight_held n → result ≡ capped n }
{
    weight.unwrap_or(u64::MAX)
}

/// The weight of an operation, which stops at the greatest `u64`.
pub fn op_weight(op: &Op) -> u64
    ensures { result ≡ capped (op_weight op.now) }
{
    match op {
        Op::Publish { base: _, edits } => stopped(edits_weight(edits)).saturating_add(OP_WEIGHT),
        Op::Begin { cookie, moment: _ } => text_weight(cookie.len()).saturating_add(OP_WEIGHT),
        Op::App { request: _, step } => step_weight(step).saturating_add(OP_WEIGHT),
        Op::Fresh { .. } => OP_WEIGHT,
        Op::Fetch { request: _, path } => text_weight(path.as_bytes().len()).saturating_add(
            OP_WEIGHT,
        ),
        Op::Offer { request: _, path } => text_weight(path.as_bytes().len()).saturating_add(
            OP_WEIGHT,
        ),
        Op::End { request: _, attrs } => attrs.weight().saturating_add(OP_WEIGHT),
        Op::Abandon { .. } => OP_WEIGHT,
        Op::Snapshot { cookie } => text_weight(cookie.len()).saturating_add(OP_WEIGHT),
        Op::Roll => 0,
    }
}

/// The weight of what a step is told, which stops at the greatest `u64`.
pub fn answer_weight(answer: &AppReply) -> u64
    ensures { result ≡ capped (answer_weight answer.now) }
{
    match answer {
        AppReply::Value(value) => pg_value::weight(value),
        AppReply::Done => 0,
        AppReply::Created => 0,
        AppReply::Large { .. } => 0,
    }
}

/// The weight of a reply, which stops at the greatest `u64`.
pub fn reply_weight(reply: &Reply) -> u64
    ensures { result ≡ capped (reply_weight reply.now) }
{
    match reply {
        Reply::Published { version: _, dirty } => stopped(names_weight(dirty)),
        Reply::App(answer) => answer_weight(answer),
        _ => 0,
    }
}

/// The weight of an entry, which stops at the greatest `u64`.
pub fn entry_weight(entry: &Entry) -> u64
    ensures { result ≡ capped (weight_with entry.now.op entry.now.reply) }
{
    op_weight(&entry.op).saturating_add(reply_weight(&entry.reply))
}

/// Whether a claim is over what a limit leaves beside what is taken.
pub fn is_over(limit: u64, taken: u64, claim: u64) -> bool
    requires { taken ≤ limit }
    ensures { result ≡ nat_lt limit (taken + claim) }
{
    limit - taken < claim
}
