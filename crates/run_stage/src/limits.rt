//! What a run may be charged, and what the promise of its request covers.
use page_meaning::CHARGE_LIMIT;
use pg_value::MAX_WEIGHT;
use site_words::{OP_WEIGHT, PROMISE};

/// What a step weighs beside its name, its value and its answer, of `MAX_WEIGHT` each: its
/// operation and the 16 bytes of a text, rounded up above the charge of a look.
const STEP_FRAME: u64 = 2_696;

/// The greatest charge behind a step or a look: it is asked below `CHARGE_LIMIT`, and weighs a
/// name, a value and an answer.
pub const MAX_ASKED_CHARGE: u64 = CHARGE_LIMIT + 3 * MAX_WEIGHT + STEP_FRAME;

/// The charge of one more page's run, `MAX_PAGE_CHARGE`, rounded up.
const RUN_CHARGE: u64 = 3_000;

/// The greatest charge of a request: the run of a page is asked for behind the last step.
pub const MAX_CHARGE: u64 = MAX_ASKED_CHARGE + RUN_CHARGE;

/// What a Begin takes of the promise, its operation and its cookie, rounded up.
const BEGIN_CHARGE: u64 = 5_376;

/// What the charge and the rest of the promise come to at least where a page's run begins.
pub const RUN_PROMISE: u64 = PROMISE - BEGIN_CHARGE;

/// The same behind a session that the run made, whose Fresh takes its weight of the promise.
pub const SESSION_RUN_PROMISE: u64 = RUN_PROMISE - OP_WEIGHT;
