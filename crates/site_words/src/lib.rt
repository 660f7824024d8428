//! The words of a site: operations, replies, histories, and what an opening is.
#![tactic(auto)]

mod affixes;
mod app_port;
mod compiled;
mod copies;
mod ids;
pub mod laws;
mod limits;
mod pages;
mod port;
mod seed;
mod weights;
mod words;

pub use affixes::{has_prefix, has_suffix};
pub use app_port::{AppPort, Paged};
pub use compiled::Compiled;
pub use copies::copy_reply;
pub use edges::Acted;
pub use ids::word;
pub use limits::{
    COUNT_END, END_WEIGHT, IDLE_SECONDS, JOURNAL_LIMIT, MAX_COOKIE_BYTES, MAX_PAGE_CHARGE,
    MAX_PASSES, MAX_SESSIONS, OP_WEIGHT, PROMISE,
};
pub use pages::{is_page, page_charge};
pub use port::{Begun, Fresh, Port, Published, Snapped};
pub use seed::seed_of;
pub use weights::{
    answer_weight, entry_weight, is_over, op_weight, publishing_weight, reply_weight, step_weight,
};
pub use words::{
    AppReply, AppStep, Entry, KeptSession, KeptSessions, Op, Opening, Refusal, Reply, Run,
};
