// Settings, and what both readers tell of heads.
use page_pieces::{Attribute, Brought, BroughtPrefixes, Part, Prefixes, Setting};
use pg_text::{Failure, Path, Text, resolve};
use std::alloc::{AllocError, Global};

/// A setting with the prefix c.
pub fn setting(alloc: Global, words: &str) -> Result<Setting, AllocError> {
    let mut brought = Brought::empty(alloc);
    if words.contains("brought") {
        let prefixes = prefixes(alloc, "d")?;
        brought.push(BroughtPrefixes { byte: 6, prefixes })?;
    }
    Ok(Setting {
        prefixes: prefixes(alloc, "c")?,
        brought,
        el: !words.contains("off"),
        hash_is_text: words.contains("hash"),
    })
}

fn prefixes(alloc: Global, prefix: &str) -> Result<Prefixes, AllocError> {
    let mut prefixes = Prefixes::new(alloc);
    prefixes.push(Text::copy_of(alloc, prefix)?)?;
    Ok(prefixes)
}

/// The path of each page here.
pub fn page_path(alloc: Global) -> Result<Path, AllocError> {
    match resolve(alloc, None, "/p.jsp") {
        Ok(path) => Ok(path),
        Err(Failure::NoMemory) | Err(Failure::Fault(_)) => Err(AllocError),
    }
}

/// Adds an attribute: its name, the line and column of its value, and the parts of that.
pub fn add_attribute(out: &mut String, attribute: &Attribute) -> Result<(), AllocError> {
    let (line, column) = (attribute.place.line, attribute.place.column);
    write!(out, " {}={line}:{column}", attribute.name.as_str())?;
    for part in attribute.parts.as_slice() {
        match part {
            Part::Text(text) => write!(out, "'{}'", text.as_str())?,
            Part::Expr(text) => write!(out, "${{{}}}", text.as_str())?,
            Part::Hash => out.push_str("#{")?,
        }
    }
    Ok(())
}
