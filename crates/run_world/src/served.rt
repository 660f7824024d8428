use crate::raised::Raise;
use http_in::Request;

/// What no part of a run changes: the request, and the fault that an error page sees.
#[derive(Drop)]
pub struct Served<'a> {
    pub request: &'a Request,
    pub exception: Option<&'a Raise>,
}
