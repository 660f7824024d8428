use http_in::{Param, Request};
use pg_text::Path;
use source_tree::Tree;

/// A page of a tree as it is asked for: its path, the request for which it runs, and the
/// parameters of this run.
#[derive(Clone, Copy)]
pub struct TreePage<'a> {
    pub tree: &'a Tree,
    pub path: &'a Path,
    pub request: &'a Request,
    pub params: &'a [Param],
}
