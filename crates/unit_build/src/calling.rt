ghost use Rattle.std.specs.Prelude.{◌≡◌, ◌∷◌, [], Some, None, true, List, length, IfOk};
ghost use Rattle.std.specs.Option.{option_map};
ghost use Rattle.page_directives.specs.Faults.{in_order};
ghost use Rattle.page_directives.specs.Meet.{Before};
ghost use Rattle.unit_source.specs.Files.{text_in};
ghost use Rattle.unit_source.specs.Placed.{root_view};
ghost use Rattle.unit_source.specs.Root.{rooted};
ghost use Rattle.unit_words.specs.Calls.{call_counted, call_met, call_text, called, first_call};
ghost use Rattle.unit_words.specs.Counts.{counted};
ghost use Rattle.unit_build.specs.ReadFound.{IsCalled, state_in};

use crate::found::{Found, tag_in};
use crate::tag::Tag;
use page_directives::Faults;
use pg_text::{Path, Text, TranslationFault};
use std::alloc::{AllocError, Global};
use std::sync::Arc;
use unit_words::Counted;

/// What a call comes to: its faults, and the tag file where this is its first call.
pub(crate) type Called = (Faults, Option<Arc<Tag>>);

// A call that has these faults and enters no tag file.
#[tactic(auto, using(crate::proofs::CalledLemmas::called_none))]
fn refuse(path: &Path, faults: Faults, found: &mut Found) -> Result<Called, AllocError>
    ensures { IfOk result (λ answer. (before : Before) (comes : List TranslationFault) → faults ≡ in_order comes
        → IsCalled found.old found.new before answer.0 (option_map (λ tag. root_view tag.value) answer.1)
        (called comes (path.now ∷ []) (state_in before found.old) None)) }
{
    found.need(path)?;
    Ok((faults, None))
}

// Reads a tag file at its first call.
fn enter_tag(
    alloc: Global,
    path: &Path,
    text: &Text,
    found: &mut Found,
) -> Result<Called, AllocError>
    ensures { IfOk result (λ answer. (before : Before) → text_in found.old.site path.now ≡ Some text.now
        → IsCalled found.old found.new before answer.0 (option_map (λ tag. root_view tag.value) answer.1)
        (first_call path.now (rooted (text_in found.old.site) true path.now text.now) (state_in before found.old))) }
{
    let Some(root) = found.site.root(path, true)? else {
        return refuse(path, Faults::none(), found);
    };
    found.need(path)?;
    found.need_all(root.names.as_slice())?;
    let tag = Arc::new(alloc, Tag::new(alloc, root)?)?;
    found.tags.push(Arc::try_clone(&tag)?)?;
    Ok((Faults::none(), Some(tag)))
}

// Counts a tag file that was not read yet, and reads it where the unit stays within its limits;
// or else refuses it, with TooLarge only where it is the first to pass one.
fn count_tag(
    alloc: Global,
    path: &Path,
    text: &Text,
    found: &mut Found,
) -> Result<Called, AllocError>
    ensures { IfOk result (λ answer. (before : Before) → text_in found.old.site path.now ≡ Some text.now
        → IsCalled found.old found.new before answer.0 (option_map (λ tag. root_view tag.value) answer.1)
        (call_counted (text_in found.old.site) path.now text.now (counted (length text.now) found.old.counts)
        (state_in before found.old))) }
{
    match found.counts.count(text.len()) {
        Counted::Within => enter_tag(alloc, path, text, found),
        Counted::Passes => refuse(path, Faults::one(TranslationFault::TooLarge), found),
        Counted::Over => refuse(path, Faults::none(), found),
    }
}

// What the call of a tag file with this text comes to: it is read once.
fn meet_tag(
    alloc: Global,
    path: &Path,
    text: &Text,
    found: &mut Found,
) -> Result<Called, AllocError>
    ensures { IfOk result (λ answer. (before : Before) → text_in found.old.site path.now ≡ Some text.now
        → IsCalled found.old found.new before answer.0 (option_map (λ tag. root_view tag.value) answer.1)
        (call_text (text_in found.old.site) path.now (Some text.now) (state_in before found.old))) }
{
    if tag_in(path.as_str(), &found.tags).is_some() {
        return refuse(path, Faults::none(), found);
    }
    count_tag(alloc, path, text, found)
}

/// What the call of the tag file at a path comes to.
pub(crate) fn meet_call(alloc: Global, path: &Path, found: &mut Found) -> Result<Called, AllocError>
    ensures { IfOk result (λ answer. (before : Before) →
        IsCalled found.old found.new before answer.0 (option_map (λ tag. root_view tag.value) answer.1)
        (call_met (text_in found.old.site) path.now (state_in before found.old))) }
{
    match found.text(path)? {
        Some(text) => meet_tag(alloc, path, &text, found),
        None => refuse(path, Faults::one(TranslationFault::NoTag), found),
    }
}
