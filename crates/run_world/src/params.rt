// The parameters of a page run.
use http_in::Param;

/// The parameters with which a page runs: a list, or one in front of those of the page that
/// includes it.
#[derive(Drop)]
pub enum Params<'a> {
    Listed(&'a [Param]),
    Before(&'a [Param], &'a Params<'a>),
}
