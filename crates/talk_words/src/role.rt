/// Whether a connection may change the site.
#[derive(Clone, Copy, Debug, PartialEq, Eq)]
pub enum Role {
    /// It asks for pages alone.
    Reader,
    /// It asks for pages, and is an editor's too.
    Both,
}
