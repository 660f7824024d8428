use crate::wires::Wire;

/// The connections of a round: those of readers, of the editor and of previews.
#[derive(Clone, Copy)]
pub struct Parted<'a> {
    pub readers: &'a [Wire],
    pub editors: &'a [Wire],
    pub previews: &'a [Wire],
}
