ghost use Rattle.std.specs.Prelude.{◌≡◌, IfOk};
ghost use Rattle.std.specs.Option.{option_map};
ghost use Rattle.jstl_tags.specs.Elements.{opened_of};
ghost use Rattle.page_directives.specs.Directive.{row_of};
ghost use Rattle.jstl_tags.specs.Core.{core_table};
ghost use Rattle.unit_words.specs.Standard.{standard_table};
ghost use Rattle.unit_words.specs.Kinds.{call_kind, core_kind, kind_of, other_fault, standard_kind};
ghost use Rattle.unit_words.specs.Kinds.{tag_path, target_kind};
ghost use Rattle.unit_judges.specs.Made.{kind_made};

use crate::registered::Registered;
use crate::standard::standard_row;
use jstl_tags::{CoreName, Row, core_row};
use page_directives::{Target, is_among};
use page_pieces::begins;
use page_reader::Element;
use pg_text::{Failure, Path, TranslationFault, resolve};
use std::alloc::{AllocError, Global};
use unit_nodes::JspName;

/// What an element is.
#[derive(Drop)]
pub enum Kind {
    Core(CoreName, Row),
    Standard(JspName, Row),
    /// The call of the tag file at a path.
    Call(Path),
    /// It has this fault.
    Refused(TranslationFault),
}

// The fault of an element `jsp:` that is no standard action.
fn other_fault(name: &str) -> TranslationFault
    ensures { result ≡ other_fault name.now }
{
    if is_among(name, &["root", "output"]) || begins("directive.", name) {
        TranslationFault::XmlSyntax
    } else if is_among(name, &["plugin", "params", "fallback", "element"]) {
        TranslationFault::LeftOut
    } else {
        TranslationFault::NoTag
    }
}

// The element `jsp:` of this name.
fn standard_kind(name: &str) -> Kind
    ensures { kind_made result ≡ standard_kind name.now (row_of name.now standard_table) }
{
    match standard_row(name) {
        Some((action, row)) => Kind::Standard(action, row),
        None => Kind::Refused(other_fault(name)),
    }
}

// The core tag of this name.
fn core_kind(name: &str) -> Kind
    ensures { kind_made result ≡ core_kind (row_of name.now core_table) }
{
    match core_row(name) {
        Some((tag, row)) => Kind::Core(tag, row),
        None => Kind::Refused(TranslationFault::NoTag),
    }
}

// The path of a tag file in a folder, where it is one.
fn tag_path(alloc: Global, folder: &str, name: &str) -> Result<Option<Path>, AllocError>
    ensures { IfOk result (λ path. path ≡ tag_path folder.now name.now) }
{
    let mut text = String::from_str(alloc, folder)?;
    text.push_str("/")?;
    text.push_str(name)?;
    text.push_str(".tag")?;
    match resolve(alloc, None, text.as_str()) {
        Ok(path) => Ok(Some(path)),
        Err(Failure::NoMemory) => Err(AllocError),
        Err(Failure::Fault(_)) => Ok(None),
    }
}

// The call of a tag file of this folder and name.
fn call_kind(alloc: Global, folder: &str, name: &str) -> Result<Kind, AllocError>
    ensures { IfOk result (λ kind. kind_made kind ≡ call_kind (tag_path folder.now name.now)) }
{
    match tag_path(alloc, folder, name)? {
        Some(path) => Ok(Kind::Call(path)),
        None => Ok(Kind::Refused(TranslationFault::NoTag)),
    }
}

// The element of this name whose prefix stands for that.
fn target_kind(alloc: Global, name: &str, target: Option<&Target>) -> Result<Kind, AllocError>
    ensures { IfOk result (λ kind. kind_made kind
        ≡ target_kind name.now (option_map (λ target. target.now) target.entry)) }
{
    match target {
        None => Ok(Kind::Refused(TranslationFault::NoTag)),
        Some(Target::CoreLibrary) => Ok(core_kind(name)),
        Some(Target::FunctionLibrary) => Ok(Kind::Refused(TranslationFault::NoTag)),
        Some(Target::TagFolder(folder)) => call_kind(alloc, folder.as_str(), name),
    }
}

/// What an element is in a page or tag file with these directives.
pub fn kind_of(
    alloc: Global,
    directives: &Registered,
    element: &Element,
) -> Result<Kind, AllocError>
    ensures { IfOk result (λ kind. kind_made kind ≡ kind_of directives.now (opened_of element.now).tag) }
{
    let name = element.name.as_str();
    if element.prefix.as_str() == "jsp" {
        return Ok(standard_kind(name));
    }
    target_kind(alloc, name, directives.target(element.prefix.as_str()))
}
