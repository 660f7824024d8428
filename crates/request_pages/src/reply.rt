use crate::body::Body;
use http_in::Param;
use http_out::{ContentType, Status};
use pg_text::{Listed, Path, Text};
use run_world::Raise;

/// What a request is answered.
#[derive(Drop)]
pub enum Reply {
    /// What the writer holds, which may break off unfinished.
    Written {
        broken: bool,
    },
    /// This body, of which nothing was committed.
    Whole {
        status: Status,
        content_type: Option<ContentType>,
        location: Option<Text>,
        body: Body,
    },
}

/// How the run of one page ended.
#[derive(Drop)]
pub enum PageEnd {
    Done(Reply),
    /// A fault ended it before anything was committed.
    Failed(Raise),
    /// The page at this path runs in its place, with these parameters.
    Forward(Path, Listed<Param>),
}
