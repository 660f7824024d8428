use pg_text::{Names, Path};

/// A path and the names that it needs.
#[derive(Drop)]
pub struct Dependent {
    pub path: Path,
    pub names: Names,
}

// A name and the paths that need it.
#[derive(Drop)]
pub struct Named {
    pub name: Path,
    pub users: Names,
}
