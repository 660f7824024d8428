use http_in::{Param, Request};
use run_world::Program;

/// A page as it is asked for: its program, the request for which it runs, and the parameters of
/// this run.
#[derive(Clone, Copy)]
pub struct AskedPage<'a> {
    pub program: &'a Program,
    pub request: &'a Request,
    pub params: &'a [Param],
}
