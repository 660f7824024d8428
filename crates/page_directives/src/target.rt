ghost use Rattle.std.specs.Prelude.{◌≡◌, IfOk};
ghost use Rattle.std.specs.Option.{option_map};
ghost use Rattle.page_directives.specs.Taglibs.{is_same_target, is_tag_folder, tagdir_target};
ghost use Rattle.page_directives.specs.Taglibs.{target_in, uri_target};

use crate::words::is_among;
use page_pieces::{Attribute, begins, has_name, value_of};
use pg_text::{Failure, Path, resolve};
use std::alloc::{AllocError, Global};

const CORE_URIS: [&str; 2] = ["jakarta.tags.core", "http://java.sun.com/jsp/jstl/core"];

const FUNCTION_URIS: [&str; 2] = [
    "jakarta.tags.functions",
    "http://java.sun.com/jsp/jstl/functions",
];

/// What a prefix stands for: a library, or the tag files of a folder.
#[derive(Drop)]
pub enum Target {
    CoreLibrary,
    FunctionLibrary,
    TagFolder(Path),
}

impl Target {
    /// An equal target.
    pub(crate) fn copy(&self) -> Result<Self, AllocError>
        ensures { IfOk result (λ copy. copy ≡ self.now) }
    {
        match self {
            Target::CoreLibrary => Ok(Target::CoreLibrary),
            Target::FunctionLibrary => Ok(Target::FunctionLibrary),
            Target::TagFolder(path) => Ok(Target::TagFolder(path.copy()?)),
        }
    }
}

// Whether two targets are the same.
pub(crate) fn is_same_target(one: &Target, other: &Target) -> bool
    ensures { result ≡ is_same_target one.now other.now }
{
    match (one, other) {
        (Target::CoreLibrary, Target::CoreLibrary) => true,
        (Target::FunctionLibrary, Target::FunctionLibrary) => true,
        (Target::TagFolder(one), Target::TagFolder(other)) => one.as_str() == other.as_str(),
        _ => false,
    }
}

// The folder `/WEB-INF/tags`, or one below it.
fn is_tag_folder(path: &str) -> bool
    ensures { result ≡ is_tag_folder path.now }
{
    path == "/WEB-INF/tags" || begins("/WEB-INF/tags/", path)
}

// The folder that a `tagdir` names by a path from the root: `/WEB-INF/tags`, or one below it.
fn tagdir_target(alloc: Global, tagdir: Option<&str>) -> Result<Option<Target>, AllocError>
    ensures { IfOk result (λ target. target ≡ tagdir_target (option_map (λ text. text.now) tagdir.entry)) }
{
    let Some(text) = tagdir else {
        return Ok(None);
    };
    if !begins("/", text) {
        return Ok(None);
    }
    match resolve(alloc, None, text) {
        Ok(path) if is_tag_folder(path.as_str()) => Ok(Some(Target::TagFolder(path))),
        Err(Failure::NoMemory) => Err(AllocError),
        _ => Ok(None),
    }
}

// The library that a `uri` names, by its present name or by its old address.
#[tactic(auto, unfolding(crate::specs::Tables::core_uris, crate::specs::Tables::function_uris))]
fn uri_target(uri: Option<&str>) -> Option<Target>
    ensures { result ≡ uri_target (option_map (λ text. text.now) uri.entry) }
{
    let uri = uri?;
    if is_among(uri, &CORE_URIS) {
        return Some(Target::CoreLibrary);
    }
    if is_among(uri, &FUNCTION_URIS) {
        return Some(Target::FunctionLibrary);
    }
    None
}

// The target that one of `uri` and `tagdir` names.
pub(crate) fn target_in(
    alloc: Global,
    attributes: &[Attribute],
) -> Result<Option<Target>, AllocError>
    ensures { IfOk result (λ target. target ≡ target_in attributes.now) }
{
    if !has_name(attributes, "uri") {
        return tagdir_target(alloc, value_of(attributes, "tagdir"));
    }
    if has_name(attributes, "tagdir") {
        return Ok(None);
    }
    Ok(uri_target(value_of(attributes, "uri")))
}
