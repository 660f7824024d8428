use page_code::Shape;
use pg_text::Place;

/// Where code is put: on what stands open there, and for which place of the page.
#[derive(Clone, Copy)]
pub(crate) struct Position<'a> {
    pub ground: &'a Shape,
    pub place: &'a Place,
}
