use site_words::{Op, Reply};

// An operation with its reply, whole.
#[derive(Drop)]
pub struct Answered {
    pub op: Op,
    pub reply: Reply,
}
