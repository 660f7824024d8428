use crate::here::Here;
use crate::kind::Kind;
use unit_source::PlacedElement;

/// An element where it begins: what stands around it, what it is, and the element itself.
#[derive(Clone, Copy)]
pub struct Beginning<'n, 'e> {
    pub here: Here<'n>,
    pub kind: &'e Kind,
    pub element: &'e PlacedElement,
}
