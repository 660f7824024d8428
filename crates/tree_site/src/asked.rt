use pg_text::Path;
use site_words::AppStep;

/// What was asked of a site.
#[derive(Drop)]
pub enum Asked {
    App(AppStep),
    Fresh,
    /// The page at a path was looked for, and stands there.
    Fetch(Path),
}
