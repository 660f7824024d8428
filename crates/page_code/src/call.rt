use crate::shared::Shared;
use pg_text::{Listed, Path, Text};

/// The body that a call hands down.
#[derive(Drop)]
pub enum CallBody {
    Absent,
    /// Its text as it was written.
    Source(Text),
    /// So many cells, which stand right behind the call.
    Cells(usize),
}

/// A fragment that a call hands down: its name, and how many cells it has. They stand behind those
/// of the body and of the fragments before it.
#[derive(Drop)]
pub struct Fragment {
    pub name: Text,
    pub size: usize,
}

/// The call of a tag file: the attributes whose values it takes, in the order in which they were
/// pushed, and the body and the fragments that it hands down, with the cells that it passes over.
#[derive(Drop)]
pub struct TagCall {
    pub path: Path,
    pub names: Listed<Text>,
    pub body: CallBody,
    pub fragments: Listed<Fragment>,
}

/// What is run inside the run of a code, which goes on behind it.
#[derive(Drop)]
pub enum CallOut {
    Tag(Shared<TagCall>),
    /// The body that this code was given.
    Body,
    /// The fragment of this name that this code was given.
    Fragment(Text),
    /// The page at an address, with so many parameters. Each name stands below its value, and the
    /// address below them.
    Include { flush: bool, params: usize },
    /// The page at the address on top.
    Import,
}

/// How the run of a code ends.
#[derive(Clone, Copy, Debug, PartialEq, Eq)]
pub enum Leave {
    /// Goes over to the page at an address, with so many parameters. Each name stands below its
    /// value, and the address below them.
    Forward(usize),
    /// Sends the client to the address on top.
    Redirect,
    /// The end of a page, a tag file, a body or a fragment.
    End,
}
