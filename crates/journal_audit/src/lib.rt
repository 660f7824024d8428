//! The auditor of journals: whether each of them, one behind the other, is right, and where not,
//! which part of the first wrong one is wrong first.
#![tactic(auto)]

mod auditing;
mod command;
mod judging;
mod lines;
mod verdict;

pub use auditing::audit;
pub use command::audit_words;
pub use verdict::{AuditFault, Verdict, Why};
