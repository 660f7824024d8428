use crate::raised::Raise;
use pg_text::Text;

/// What a request keeps across its page runs.
#[derive(Drop)]
pub struct Around {
    /// How many calls, includes, fragments and forwards the page stands in.
    pub depth: u32,
    /// How many visits were counted, at most `VISIT_LIMIT` of `page_meaning`.
    pub visits: u32,
    /// What was charged for the steps that were asked.
    pub charge: u64,
    /// The id of the session, where there is one.
    pub id: Option<Text>,
    /// Whether this request made the session.
    pub fresh: bool,
    /// The fault that an error page sees.
    pub exception: Option<Raise>,
}
