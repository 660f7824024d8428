use site_words::Published;

/// What a message of an editor comes to.
#[derive(Drop)]
pub enum EditorAnswer {
    /// The draft has so many edits then.
    Drafted(u64),
    /// The draft became a version, for which these pages are made anew.
    Published(Published),
}
