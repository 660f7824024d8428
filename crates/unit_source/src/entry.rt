/// What an include directive comes to.
#[derive(Clone, Copy, Debug, PartialEq, Eq)]
pub enum Entry {
    /// It names no file, since its `file` is no plain text.
    Unnamed,
    /// The file that it names is absent, or its path is refused.
    Absent,
    /// The file that it names is being read.
    Cycle,
    /// The file that it names has so many bytes, and is read.
    Entered(usize),
    /// The file that it names has so many bytes, and isn't read: it stands in too many elements, or
    /// behind a limit of files or bytes.
    Unread(usize),
}
