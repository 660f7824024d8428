use pg_text::{BadPath, Failure, Names, Path, resolve};
use std::alloc::{AllocError, Global};

/// The path of a text.
pub fn path(alloc: Global, text: &str) -> Result<Path, Failure<BadPath>> {
    resolve(alloc, None, text)
}

/// The names of these texts.
pub fn names(alloc: Global, texts: &[&str]) -> Result<Names, Failure<BadPath>> {
    let mut names = Names::empty(alloc);
    for text in texts {
        names.insert(path(alloc, text)?)?;
    }
    Ok(names)
}

/// The names, each ended by a blank.
pub fn listed(alloc: Global, names: &Names) -> Result<String, AllocError> {
    let mut line = String::new(alloc);
    for name in names.as_slice() {
        line.push_str(name.as_str())?;
        line.push_str(" ")?;
    }
    Ok(line)
}

/// The names where there are some.
pub fn listed_some(alloc: Global, names: Option<&Names>) -> Result<String, AllocError> {
    match names {
        Some(names) => listed(alloc, names),
        None => String::from_str(alloc, "none"),
    }
}
