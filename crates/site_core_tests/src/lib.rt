//! Operations on a site in words, for the tests of sites.
#![tactic(auto)]

mod calls;
mod fresh_site;
mod line;
mod opening;
mod script;
mod word;

pub use calls::{script_told, step};
pub use fresh_site::{played, session_id};
pub use line::{entry_text, file_text, outcome_text, replied};
pub use opening::{AMPLE, Unsound, opened};
pub use script::{Line, Question, asked, number, op_of, pass_of, path_of, picture, put, words};
pub use word::Word;
