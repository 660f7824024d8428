use packed_entries::History;
use site_words::Opening;

/// Where the entry of an operation comes: to the end of this history, of a site that opened so, as
/// one of this pass.
#[derive(Clone, Copy)]
pub(crate) struct EntryPlace<'a> {
    pub opening: &'a Opening,
    pub history: &'a History,
    pub pass: u8,
}
