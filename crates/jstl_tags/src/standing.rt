use crate::standings::Standings;
use page_pieces::Attributes;

/// One thing that stands in the body of an element with static includes in place. Comments and
/// directives are nothing there.
#[derive(Clone, Copy)]
pub enum Standing<'a> {
    /// White space alone.
    Blank,
    /// Other text, an expression, or a `#{`.
    Other,
    Element {
        prefix: &'a str,
        name: &'a str,
        attributes: &'a Attributes,
    },
}

/// The body of an element: what stands there, and what stands in the `jsp:body` elements there.
#[derive(Clone, Copy)]
pub struct Body<'a> {
    pub standing: &'a Standings<'a>,
    pub inner: &'a [Standing<'a>],
}
