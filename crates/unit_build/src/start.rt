ghost use Rattle.std.specs.Prelude.{◌≡◌, ◌++◌, IfOk, List, OnOk};
ghost use Rattle.std.specs.Option.{option_map};
ghost use Rattle.pg_text.specs.declared.translation_fault.TranslationFault.{TranslationFault};
ghost use Rattle.page_directives.specs.Faults.{in_order};
ghost use Rattle.page_directives.specs.Meet.{Before};
ghost use Rattle.jstl_tags.specs.Elements.{opened_of};
ghost use Rattle.unit_source.specs.Files.{text_in};
ghost use Rattle.unit_source.specs.InPlace.{flat};
ghost use Rattle.unit_source.specs.Placed.{in_place, root_view};
ghost use Rattle.unit_words.specs.Calls.{declaration_of};
ghost use Rattle.unit_words.specs.Elements.{value_faults, values_met};
ghost use Rattle.unit_words.specs.Kinds.{is_function_prefix};
ghost use Rattle.unit_words.specs.State.{faults_at};
ghost use Rattle.unit_words.specs.Values.{part_faults};
ghost use Rattle.unit_words.specs.Walk.{bean_called, declaration_in, file_met, nested};
ghost use Rattle.unit_judges.specs.Made.{here_made, kind_made};
ghost use Rattle.unit_build.specs.ReadFound.{IsCalled, IsMet, state_in};
ghost use Rattle.unit_build.specs.ReadWalk.{IsStarted, start_events};

use crate::calling::{Called, meet_call};
use crate::course::Course;
use crate::found::{Found, tag_in};
use crate::tag::Tag;
use page_directives::Faults;
use page_pieces::Attribute;
use page_reader::Element;
use std::alloc::{AllocError, Global};
use std::sync::Arc;
use tag_decl::TagDecl;
use unit_judges::{Beginning, Kind, Known, element_faults, part_faults, value_faults};
use unit_nodes::JspName;

// What the class of a `jsp:useBean` comes to.
#[tactic(auto, using(crate::proofs::CalledLemmas::called_bean))]
fn meet_bean(alloc: Global, head: &Element, found: &mut Found) -> Result<Called, AllocError>
    ensures { IfOk result (λ answer. (before : Before) →
        IsCalled found.old found.new before answer.0 (option_map (λ tag. root_view tag.value) answer.1)
        (bean_called (text_in found.old.site) (opened_of head.now).tag (state_in before found.old))) }
{
    let faults = found.meet_bean(alloc, head.attributes.plain("class"))?;
    Ok((faults, None))
}

// What an element's file comes to: a tag file, or a bean.
#[tactic(auto, using(crate::proofs::CalledLemmas::called_nothing))]
fn meet_file(
    alloc: Global,
    kind: &Kind,
    head: &Element,
    found: &mut Found,
) -> Result<Called, AllocError>
    ensures { IfOk result (λ answer. (before : Before) →
        IsCalled found.old found.new before answer.0 (option_map (λ tag. root_view tag.value) answer.1)
        (file_met (text_in found.old.site) (kind_made kind.now) (opened_of head.now).tag (state_in before found.old))) }
{
    match kind {
        Kind::Call(path) => meet_call(alloc, path, found),
        Kind::Standard(JspName::UseBean, _) => meet_bean(alloc, head, found),
        _ => Ok((Faults::none(), None)),
    }
}

// The same, where it may stand in too many others.
fn meet_nested(alloc: Global, beginning: Beginning, found: &mut Found) -> Result<Called, AllocError>
    ensures { IfOk result (λ answer. (before : Before) →
        IsCalled found.old found.new before answer.0 (option_map (λ tag. root_view tag.value) answer.1)
        (file_met (text_in found.old.site) (kind_made beginning.entry.kind.now)
        (opened_of beginning.entry.element.now.head).tag
        (nested (here_made beginning.entry.here) (state_in before found.old)))) }
{
    found.counts.nest(beginning.here.deep);
    meet_file(alloc, beginning.kind, &beginning.element.head, found)
}

// The tag file that is called, where it was read.
fn called_tag(kind: &Kind, found: &Found) -> Result<Option<Arc<Tag>>, AllocError>
    ensures { IfOk result (λ tag. (before : Before) →
        declaration_of (option_map (λ tag. root_view tag.value) tag) ≡ declaration_in (kind_made kind.now)
        (state_in before found.now)) }
{
    match kind {
        Kind::Call(path) => match tag_in(path.as_str(), &found.tags) {
            Some(tag) => Ok(Some(Arc::try_clone(tag)?)),
            None => Ok(None),
        },
        _ => Ok(None),
    }
}

// What a tag file declares, where its declarations have no fault.
fn declared(tag: Option<&Tag>) -> Option<&TagDecl>
    ensures { option_map (λ decl. decl.now) result
        ≡ declaration_of (option_map (λ tag. root_view tag.now) tag.entry) }
{
    tag?.declared()
}

// Meets the faults of an attribute's value at its place; the first that was ever met stays.
fn meet_value(
    alloc: Global,
    course: &Course,
    decl: Option<&TagDecl>,
    kind: &Kind,
    attribute: &Attribute,
    found: &mut Found,
) -> Result<(), AllocError>
    ensures { OnOk result (IsMet found.old found.new (faults_at attribute.now.place
        (value_faults (option_map (λ decl. decl.now) decl.entry) (kind_made kind.now) attribute.now
        ++ part_faults (is_function_prefix course.now.before.directives) attribute.now.parts))) }
{
    let taken = value_faults(alloc, decl, kind, attribute)?;
    let parts = part_faults(
        alloc,
        &course.before,
        attribute.parts.as_slice(),
        &mut found.readings,
    )?;
    found.meet(&attribute.place, taken.and(parts))
}

// Meets the faults of each attribute's value in turn. `decl` is what the called tag file declares:
// None where no tag file is called, where it wasn't read, or where its declarations have a fault.
fn meet_values(
    alloc: Global,
    course: &Course,
    decl: Option<&TagDecl>,
    kind: &Kind,
    attributes: &[Attribute],
    found: &mut Found,
) -> Result<(), AllocError>
    ensures { OnOk result (IsMet found.old found.new
        (values_met (is_function_prefix course.now.before.directives)
        (option_map (λ decl. decl.now) decl.entry) (kind_made kind.now) attributes.now)) }
{
    for attribute in attributes {
        meet_value(alloc, course, decl, kind, attribute, found)?;
    }
    Ok(())
}

// Meets the faults of an element at its beginning, beside those of its file, and its attributes.
fn meet_faults(
    alloc: Global,
    course: &Course,
    beginning: Beginning,
    faults: Faults,
    found: &mut Found,
) -> Result<(), AllocError>
    ensures { OnOk result ((before : Before) (comes : List TranslationFault) → faults ≡ in_order comes
        → IsMet found.old found.new (start_events (root_view course.now.root)
        (kind_made beginning.entry.kind.now) (here_made beginning.entry.here)
        (opened_of beginning.entry.element.now.head)
        (flat (in_place beginning.entry.element.now.body.items)) comes course.now.before
        (declaration_in (kind_made beginning.entry.kind.now) (state_in before found.old)))) }
{
    let kind = beginning.kind;
    let tag = called_tag(kind, found)?;
    let decl = declared(tag.as_deref());
    let head = &beginning.element.head;
    let known = Known {
        core: course.root.core(),
        in_tag: course.root.in_tag(),
        decl,
    };
    let own = element_faults(alloc, known, beginning)?;
    found.meet(&head.place, faults.and(own))?;
    meet_values(alloc, course, decl, kind, head.attributes.as_slice(), found)
}

/// Meets the beginning of an element and its attributes: the tag file where this is its first call.
#[inline(never)]
pub(crate) fn meet_start(
    alloc: Global,
    course: &Course,
    beginning: &Beginning,
    found: &mut Found,
) -> Result<Option<Arc<Tag>>, AllocError>
    ensures { IfOk result (λ entered. IsStarted found.old found.new (root_view course.now.root)
        (kind_made beginning.now.kind.now) (here_made beginning.now.here)
        (opened_of beginning.now.element.now.head)
        (flat (in_place beginning.now.element.now.body.items)) course.now.before
        (option_map (λ tag. root_view tag.value) entered)
        (file_met (text_in found.old.site) (kind_made beginning.now.kind.now)
        (opened_of beginning.now.element.now.head).tag
        (nested (here_made beginning.now.here) (state_in course.now.before found.old)))) }
{
    let (faults, entered) = meet_nested(alloc, *beginning, found)?;
    meet_faults(alloc, course, *beginning, faults, found)?;
    Ok(entered)
}
