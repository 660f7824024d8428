use pg_text::{Listed, Path};

/// A name with the stamp of its file, or with none where no file has it.
#[derive(Drop)]
pub struct Need {
    pub name: Path,
    pub stamp: Option<u64>,
}

/// Names in byte order, each with its stamp or with none.
pub type Stamps = Listed<Need>;
