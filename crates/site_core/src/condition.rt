ghost use Rattle.std.specs.Prelude.{◌≡◌, ◌+◌, ◌<◌, ℕ, List, map};
ghost use Rattle.site_words.specs.declared.words.Entry.{Entry as TheEntry};
ghost use Rattle.site_words.specs.Fits.{asks, at_rest, finds, fits, fits_step, has_run};
ghost use Rattle.site_words.specs.Fits.{has_session, is_null, rests};
ghost use Rattle.site_words.specs.Runs.{run_at, under_at};
ghost use Rattle.site_words.specs.Weights.{capped};
ghost use Rattle.site_state.specs.Parts.{parts_of, state_of, under_in};

use pg_value::{MAX_SESSION_WEIGHT, MAX_WEIGHT, Value, is_too_large};
use site_state::{Held, Request};
use site_words::{AppStep, Compiled, END_WEIGHT, MAX_COOKIE_BYTES, Op, Opening, Run, op_weight};

/// Whether no request is under way.
pub(crate) fn at_rest(runs: &[Option<Request>]) -> bool
    ensures { result ≡ at_rest (map under_in runs.now) }
{
    for request in runs {
        if request.is_some() {
            return false;
        }
    }
    true
}

/// Whether the operation meets the condition of a step.
pub(crate) fn fits<P: Compiled>(opening: &Opening, held: &Held<P>, pass: u8, op: &Op) -> bool
    ensures { (history : List TheEntry) → result
        ≡ fits opening.now (state_of opening.now history (parts_of held.now)) pass op.now }
{
    pass < opening.passes
        && asks(run_at(&held.runs, pass), op)
        && finds(&held.runs, pass, op)
        && rests(&held.runs, op)
}

// The request that the pass has under way, without its tree.
fn run_at(runs: &[Option<Request>], pass: u8) -> Option<Run>
    ensures { result ≡ run_at (map under_in runs.now) pass }
{
    match runs.get(pass as usize) {
        Some(Some(request)) => Some(request.run),
        _ => None,
    }
}

// The part of the condition that speaks of the pass's request alone.
fn asks(run: Option<Run>, op: &Op) -> bool
    ensures { result ≡ asks run op.now }
{
    match op {
        Op::Publish { .. } => true,
        Op::Begin { cookie, moment: _ } => run.is_none() && cookie.len() <= MAX_COOKIE_BYTES,
        Op::App { request, step } => {
            has_run(run, *request, op_weight(op), MAX_WEIGHT + END_WEIGHT) && fits_step(step)
        }
        Op::Fresh { request } => {
            has_run(run, *request, op_weight(op), END_WEIGHT) && !has_session(run)
        }
        Op::Fetch { request, path: _ } => has_run(run, *request, op_weight(op), END_WEIGHT),
        Op::Offer { request, path: _ } => has_run(run, *request, op_weight(op), END_WEIGHT),
        Op::End { request, attrs } => {
            is_run(run, *request)
                && attrs.weight() <= MAX_SESSION_WEIGHT
                && (has_session(run) || attrs.is_empty())
        }
        Op::Abandon { request } => is_run(run, *request),
        Op::Snapshot { cookie } => cookie.len() <= MAX_COOKIE_BYTES,
        Op::Roll => true,
    }
}

// Whether the request is under way and so much is left of its promise.
fn has_run(run: Option<Run>, request: u64, weight: u64, more: u64) -> bool
    requires { 0 < more }
    ensures { (n : ℕ) → weight ≡ capped n → result ≡ has_run run request (n + more) }
{
    match run {
        Some(run) => { run.request == request && weight <= run.left && more <= run.left - weight }
        None => false,
    }
}

// Whether the request is under way.
fn is_run(run: Option<Run>, request: u64) -> bool
    ensures { result ≡ has_run run request 0 }
{
    match run {
        Some(run) => run.request == request,
        None => false,
    }
}

// Whether the request has a session.
fn has_session(run: Option<Run>) -> bool
    ensures { result ≡ has_session run }
{
    match run {
        Some(run) => run.session.is_some(),
        None => false,
    }
}

// Whether the value of a step keeps its limits, and null isn't set.
fn fits_step(step: &AppStep) -> bool
    ensures { result ≡ fits_step step.now }
{
    match step {
        AppStep::Set(_, value) => !is_null(value) && !is_too_large(value),
        AppStep::Ensure(_, value) => !is_too_large(value),
        _ => true,
    }
}

fn is_null(value: &Value) -> bool
    ensures { result ≡ is_null value.now }
{
    matches!(value, Value::Null)
}

// Whether what is offered is in the request's tree.
fn finds(runs: &[Option<Request>], pass: u8, op: &Op) -> bool
    ensures { result ≡ finds (under_at (map under_in runs.now) pass) op.now }
{
    match op {
        Op::Offer { request: _, path } => match runs.get(pass as usize) {
            Some(Some(request)) => request.tree.has(path),
            _ => false,
        },
        _ => true,
    }
}

// Whether no request is under way, if the operation is a Roll.
fn rests(runs: &[Option<Request>], op: &Op) -> bool
    ensures { result ≡ rests (map under_in runs.now) op.now }
{
    match op {
        Op::Roll => at_rest(runs),
        _ => true,
    }
}
