ghost use Rattle.std.specs.Prelude.{◌≡◌, ◌∷◌, [], map, Some};
ghost use Rattle.std.specs.Option.{is_some, option_map, option_to_list};
ghost use Rattle.page_pieces.specs.Settings.{plain_text};
ghost use Rattle.page_reader.specs.Trees.{Tree};
ghost use Rattle.page_directives.specs.Faults.{in_order};
ghost use Rattle.tag_decl.specs.Declare.{declared};
ghost use Rattle.jstl_tags.specs.Check.{lacks};
ghost use Rattle.jstl_tags.specs.Content.{attribute_names, given_names};
ghost use Rattle.jstl_tags.specs.Elements.{opened_of};
ghost use Rattle.jstl_tags.specs.Given.{names_made};
ghost use Rattle.jstl_tags.specs.Standing.{IsBody, part_names_in, standing_made};
ghost use Rattle.unit_words.specs.Calls.{call_faults, call_value_faults, declared_faults};
ghost use Rattle.unit_words.specs.Calls.{is_empty_kind, lacks_required, name_faults, names_faults};
ghost use Rattle.unit_words.specs.Calls.{takes_none};

use crate::body::is_whole;
use jstl_tags::{Body, Given, Standing, is_bodiless, split_faults};
use page_directives::Faults;
use page_pieces::{Attribute, Attributes, plain_text};
use page_reader::Element;
use pg_text::{Text, TranslationFault};
use tag_decl::{AttrDecl, AttrDecls, BodyKind, TagDecl, declared};

// The faults of a name that is given.
fn name_faults(dynamic: bool, is_written: bool, decl: Option<&AttrDecl>) -> Faults
    ensures { result ≡ in_order (name_faults dynamic is_written (option_map (λ decl. decl.now) decl.entry)) }
{
    match decl {
        None => Faults::one_if(!dynamic, TranslationFault::BadAttribute),
        Some(decl) => Faults::one_if(decl.fragment && is_written, TranslationFault::BadAttribute),
    }
}

// The faults of a name that is given beside these attributes, by the declaration.
#[tactic(auto, using(crate::proofs::CallLemmas::written))]
fn given_faults(decl: &TagDecl, attributes: &Attributes, name: &str) -> Faults
    ensures { result ≡ in_order (names_faults decl.now (attribute_names attributes.now) (name.now ∷ [])) }
{
    name_faults(
        decl.dynamic.is_some(),
        attributes.has_name(name),
        declared(&decl.attributes, name),
    )
}

// The faults of the names of some of the attributes that are written.
fn written_faults(decl: &TagDecl, written: &Attributes, attributes: &[Attribute]) -> Faults
    ensures { result ≡ in_order (names_faults decl.now (attribute_names written.now)
        (attribute_names attributes.now)) }
{
    let mut faults = Faults::none();
    for attribute in attributes {
        faults = faults.and(given_faults(decl, written, attribute.name.as_str()));
    }
    faults
}

// The faults of a name that is given beside these attributes, where there is one.
fn named_faults(decl: &TagDecl, attributes: &Attributes, name: Option<&str>) -> Faults
    ensures { result ≡ in_order (names_faults decl.now (attribute_names attributes.now)
        (option_to_list (option_map (λ name. name.now) name.entry))) }
{
    match name {
        Some(name) => given_faults(decl, attributes, name),
        None => Faults::none(),
    }
}

// The faults of the name that `jsp:attribute` gives.
fn part_faults(decl: &TagDecl, attributes: &Attributes, part: Standing) -> Faults
    ensures { result ≡ in_order (names_faults decl.now (attribute_names attributes.now)
        (part_names_in (standing_made part.entry ∷ []))) }
{
    match part {
        Standing::Element {
            prefix: "jsp",
            name: "attribute",
            attributes: part,
        } => named_faults(decl, attributes, part.plain("name")),
        _ => Faults::none(),
    }
}

// The faults of the names that `jsp:attribute` gives.
fn parts_faults(decl: &TagDecl, attributes: &Attributes, parts: &[Standing]) -> Faults
    ensures { result ≡ in_order (names_faults decl.now (attribute_names attributes.now)
        (part_names_in (map standing_made parts.now))) }
{
    let mut faults = Faults::none();
    for part in parts {
        faults = faults.and(part_faults(decl, attributes, *part));
    }
    faults
}

// The faults of the names that are given.
#[tactic(auto, using(crate::proofs::CallLemmas::names_joined))]
fn names_faults(decl: &TagDecl, given: Given) -> Faults
    ensures { result ≡ in_order (names_faults decl.now (attribute_names given.entry.attributes.now)
        (names_made given.entry)) }
{
    let written = given.attributes;
    let parts = parts_faults(decl, written, given.parts());
    written_faults(decl, written, written.as_slice()).and(parts)
}

// Whether a declared attribute is required and not given. Only the required ones are asked, up to
// the first that isn't given, so a call costs no more than what it gives.
#[tactic(auto, using(crate::proofs::CallLemmas::lacks_named))]
fn lacks_required(decls: &AttrDecls, given: Given) -> bool
    ensures { result ≡ lacks_required decls.now (names_made given.entry) }
{
    lacks(decls.required(), given)
}

// Whether one of these names isn't given.
fn lacks(names: &[Text], given: Given) -> bool
    ensures { result ≡ lacks names.now (names_made given.entry) }
{
    for name in names {
        if !given.contains(name.as_str()) {
            return true;
        }
    }
    false
}

fn is_empty_kind(kind: BodyKind) -> bool
    ensures { result ≡ is_empty_kind kind }
{
    kind == BodyKind::Empty
}

// The faults of a call by what the tag file declares.
fn declared_faults(decl: &TagDecl, head: &Element, body: Body) -> Faults
    ensures { (tree : Tree) → IsBody body.entry tree →
        result ≡ in_order (declared_faults (Some decl.now) (opened_of head.now) tree
        (given_names (opened_of head.now).tag tree)) }
{
    let given = Given::of(head, body);
    let lacks = is_whole(head.closing) && lacks_required(&decl.attributes, given);
    let bad_body = is_empty_kind(decl.body) && !is_bodiless(head, body);
    names_faults(decl, given).and(Faults::one_if(lacks, TranslationFault::BadAttribute).and(
        Faults::one_if(bad_body, TranslationFault::BadBody),
    ))
}

// The same, where its declarations have no fault.
fn faults_by(decl: Option<&TagDecl>, head: &Element, body: Body) -> Faults
    ensures { (tree : Tree) → IsBody body.entry tree
        → result ≡ in_order (declared_faults (option_map (λ decl. decl.now) decl.entry)
        (opened_of head.now) tree (given_names (opened_of head.now).tag tree)) }
{
    match decl {
        None => Faults::none(),
        Some(decl) => declared_faults(decl, head, body),
    }
}

/// The faults of a call at its beginning, by the declaration where it has no fault.
pub(crate) fn call_faults(decl: Option<&TagDecl>, head: &Element, body: Body) -> Faults
    ensures { (tree : Tree) → IsBody body.entry tree →
        result ≡ in_order (call_faults (option_map (λ decl. decl.now) decl.entry) (opened_of head.now) tree) }
{
    let repeats = Given::of(head, body).repeats();
    Faults::one_if(repeats, TranslationFault::BadAttribute).and(split_faults(head, body).and(
        faults_by(decl, head, body),
    ))
}

fn takes_none(decl: Option<&AttrDecl>) -> bool
    ensures { result ≡ takes_none (option_map (λ decl. decl.now) decl.entry) }
{
    match decl {
        None => false,
        Some(decl) => !decl.expression && !decl.fragment,
    }
}

/// The fault of an expression for an attribute that takes none.
pub(crate) fn call_value_faults(decl: Option<&TagDecl>, attribute: &Attribute) -> Faults
    ensures { result ≡ in_order (call_value_faults (option_map (λ decl. decl.now) decl.entry) attribute.now) }
{
    match decl {
        None => Faults::none(),
        Some(decl) => Faults::one_if(
            takes_none(declared(&decl.attributes, attribute.name.as_str()))
                && plain_text(attribute.parts.as_slice()).is_none(),
            TranslationFault::BadAttribute,
        ),
    }
}
