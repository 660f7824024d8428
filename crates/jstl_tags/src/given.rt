ghost use Rattle.std.specs.Prelude.{◌≡◌, ◌∷◌, [], map, if◌then◌else◌};
ghost use Rattle.std.specs.List.{list_any};
ghost use Rattle.std.specs.Option.{option_map, option_to_list};
ghost use Rattle.page_pieces.specs.Settings.{contains_text};
ghost use Rattle.page_reader.specs.Trees.{Tree};
ghost use Rattle.page_directives.specs.Directive.{row_of};
ghost use Rattle.page_directives.specs.Faults.{in_order};
ghost use Rattle.page_directives.specs.Rows.{words};
ghost use Rattle.jstl_tags.specs.Check.{lacks, name_faults, names_faults, repeats};
ghost use Rattle.jstl_tags.specs.Content.{attribute_names, given_names, takes_parts};
ghost use Rattle.jstl_tags.specs.Elements.{opened_of};
ghost use Rattle.jstl_tags.specs.Given.{names_made, part_names_made};
ghost use Rattle.jstl_tags.specs.Rows.{row_made};
ghost use Rattle.jstl_tags.specs.ReadCheck.{names_in};
ghost use Rattle.jstl_tags.specs.Standing.{IsBody, part_names_in, standing_made};

use crate::rows::{Row, Takes};
use crate::standing::{Body, Standing};
use crate::standings::Standings;
use page_directives::Faults;
use page_pieces::{Attribute, Attributes};
use page_reader::Element;
use pg_text::TranslationFault;

/// The attributes that are given to an element: those written, and those that `jsp:attribute` gives
/// in its body, where it takes parts.
#[derive(Clone, Copy)]
pub struct Given<'a> {
    pub attributes: &'a Attributes,
    pub body: &'a Standings<'a>,
    pub takes_parts: bool,
}

impl<'a> Given<'a> {
    /// The attributes that are given to an element with this body.
    pub fn of(element: &'a Element, body: Body<'a>) -> Self
        ensures attributes { result.attributes.now ≡ element.now.attributes }
        ensures names { (tree : Tree) → IsBody body.entry tree → names_made result
            ≡ given_names (opened_of element.now).tag tree }
    {
        given_to(element, body.standing)
    }

    /// What stands in the body of an element that takes parts, and nothing of another.
    pub fn parts(self) -> &'a [Standing<'a>]
        ensures { part_names_in (map standing_made result.now) ≡ part_names_made self.entry }
    {
        let standing = self.body.as_slice();
        if self.takes_parts {
            standing
        } else {
            &standing[..0]
        }
    }

    /// Whether that name is given.
    #[tactic(auto, using(crate::proofs::NameLemmas::given_or_part))]
    pub fn contains(self, name: &str) -> bool
        ensures { result ≡ contains_text name.now (names_made self.entry) }
    {
        self.attributes.has_name(name) || is_part(self, name)
    }

    /// Whether a name is given twice.
    #[tactic(auto, using(crate::proofs::NameLemmas::repeats_apart))]
    pub fn repeats(self) -> bool
        ensures { result ≡ repeats (names_made self.entry) }
    {
        self.attributes.repeats() || are_shared(self) || part_repeats(self)
    }
}

/// Whether parts may stand in the body of an element.
pub fn takes_parts(element: &Element) -> bool
    ensures { result ≡ takes_parts (opened_of element.now).tag }
{
    let name = element.name.as_str();
    !(element.prefix.as_str() == "jsp" && (name == "attribute" || name == "body" || name == "text"))
}

// The attributes that are given to an element, by what stands in its body.
pub(crate) fn given_to<'a>(element: &'a Element, standing: &'a Standings<'a>) -> Given<'a>
    ensures attributes { result.attributes.now ≡ element.now.attributes }
    ensures names { names_made result ≡ names_in (opened_of element.now).tag (map standing_made standing.now) }
{
    Given {
        attributes: &element.attributes,
        body: standing,
        takes_parts: takes_parts(element),
    }
}

// The name that `jsp:attribute` gives, if it is plain.
pub(crate) fn part_name<'a>(thing: Standing<'a>) -> Option<&'a str>
    ensures { option_to_list (option_map (λ name. name.now) result)
        ≡ part_names_in (standing_made thing.entry ∷ []) }
{
    match thing {
        Standing::Element {
            prefix: "jsp",
            name: "attribute",
            attributes,
        } => attributes.plain("name"),
        _ => None,
    }
}

// Whether `jsp:attribute` gives that name.
#[tactic(auto, using(crate::proofs::PartLemmas::names_are))]
fn is_part(given: Given, name: &str) -> bool
    ensures { result ≡ contains_text name.now (part_names_made given.entry) }
{
    given.takes_parts && given.body.gives(name)
}

// Whether one of these names isn't given.
pub(crate) fn lacks(wanted: &[&str], given: Given) -> bool
    ensures { result ≡ lacks (words wanted.now) (names_made given.entry) }
{
    for name in wanted {
        if !given.contains(name) {
            return true;
        }
    }
    false
}

// Whether `jsp:attribute` gives a name that is written, too.
fn are_shared(given: Given) -> bool
    ensures { result ≡ list_any (λ name. contains_text name (part_names_made given.entry))
        (attribute_names given.entry.attributes.now) }
{
    for attribute in given.attributes.as_slice() {
        if is_part(given, attribute.name.as_str()) {
            return true;
        }
    }
    false
}

// Whether `jsp:attribute` gives a name twice.
#[tactic(auto, using(crate::proofs::PartLemmas::names_are))]
fn part_repeats(given: Given) -> bool
    ensures { result ≡ repeats (part_names_made given.entry) }
{
    given.takes_parts && given.body.gives_twice()
}

/// What the attribute of a name takes, by the attributes of a row.
pub fn takes_of(name: &str, attributes: &[(&str, Takes)]) -> Option<Takes>
    ensures { result ≡ row_of name.now (map (λ attribute. (attribute.0.now, attribute.1)) attributes.now) }
{
    for (attribute, takes) in attributes {
        if *attribute == name {
            return Some(*takes);
        }
    }
    None
}

// The fault of a name by the row.
fn name_faults(row: &Row, name: &str) -> Faults
    ensures { result ≡ in_order (name_faults (row_of name.now (row_made row.now).attributes)) }
{
    match takes_of(name, row.attributes) {
        None => Faults::one(TranslationFault::BadAttribute),
        Some(Takes::LeftOut) => Faults::one(TranslationFault::LeftOut),
        Some(_) => Faults::none(),
    }
}

// The faults of the names that are written.
fn written_faults(row: &Row, attributes: &[Attribute]) -> Faults
    ensures { result ≡ in_order (names_faults (row_made row.now) (attribute_names attributes.now)) }
{
    let mut faults = Faults::none();
    for attribute in attributes {
        faults = faults.and(name_faults(row, attribute.name.as_str()));
    }
    faults
}

// The fault of the name that `jsp:attribute` gives.
fn part_fault(row: &Row, thing: Standing) -> Faults
    ensures { result ≡ in_order (names_faults (row_made row.now) (part_names_in (standing_made thing.entry ∷ []))) }
{
    match part_name(thing) {
        Some(name) => name_faults(row, name),
        None => Faults::none(),
    }
}

// The faults of the names that `jsp:attribute` gives.
fn part_faults(row: &Row, parts: &[Standing]) -> Faults
    ensures { result ≡ in_order (names_faults (row_made row.now) (part_names_in (map standing_made parts.now))) }
{
    let mut faults = Faults::none();
    for thing in parts {
        faults = faults.and(part_fault(row, *thing));
    }
    faults
}

// The faults of the names that are given.
pub(crate) fn names_faults(row: &Row, given: Given) -> Faults
    ensures { result ≡ in_order (names_faults (row_made row.now) (names_made given.entry)) }
{
    written_faults(row, given.attributes.as_slice()).and(part_faults(row, given.parts()))
}
