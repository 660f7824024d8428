use request_pages::Incoming;
use source_tree::Tree;

/// A request that is under way: its number on its port, the tree that was the latest when it began,
/// and how it is answered.
#[derive(Clone, Copy)]
pub(crate) struct UnderWay<'a> {
    pub number: u64,
    pub tree: &'a Tree,
    pub incoming: Incoming<'a>,
}
