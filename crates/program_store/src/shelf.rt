use pg_text::Path;
use std::sync::Arc;

/// A path and the value that is kept for it.
#[derive(Drop)]
pub struct Shelf<P> {
    pub path: Path,
    pub made: Arc<P>,
}
