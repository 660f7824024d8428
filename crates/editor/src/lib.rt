//! What editors say to a site: edits join a draft, and a draft is published.
#![tactic(auto)]

mod answer;
mod draft;
mod fault;
mod limits;
mod message;
mod naming;
mod taking;
mod telling;

pub use answer::EditorAnswer;
pub use draft::Draft;
pub use fault::EditorFault;
pub use limits::{MAX_DRAFT_BYTES, MAX_DRAFT_EDITS};
pub use message::{Message, read_message};
pub use taking::{change, take};
pub use telling::{answer_text, fault_text};
