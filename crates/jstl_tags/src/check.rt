ghost use Rattle.std.specs.Prelude.{◌≡◌, codes, map};
ghost use Rattle.page_pieces.specs.Settings.{contains_text};
ghost use Rattle.page_reader.specs.Trees.{Tree};
ghost use Rattle.page_directives.specs.Faults.{in_order};
ghost use Rattle.jstl_tags.specs.Check.{are_set_well, core_faults, given_faults, is_whole};
ghost use Rattle.jstl_tags.specs.Check.{row_faults, split_faults};
ghost use Rattle.jstl_tags.specs.Content.{body_of, is_empty, is_part};
ghost use Rattle.jstl_tags.specs.Elements.{opened_of};
ghost use Rattle.jstl_tags.specs.Given.{names_made};
ghost use Rattle.jstl_tags.specs.Hosts.{host_made};
ghost use Rattle.jstl_tags.specs.ReadCheck.{action_by, beside_by, body_in, holds_by, own_by, own_of};
ghost use Rattle.jstl_tags.specs.ReadCheck.{split_by, split_in};
ghost use Rattle.jstl_tags.specs.Rows.{row_made};
ghost use Rattle.jstl_tags.specs.ReadStanding.{other_stands};
ghost use Rattle.jstl_tags.specs.Standing.{IsBody, standing_made};

use crate::content::{Sort, element_stands, nothing_stands, other_stands, two_stand};
use crate::core_name::CoreName;
use crate::given::{Given, given_to, lacks, names_faults, takes_parts};
use crate::host::Host;
use crate::place::place_faults;
use crate::rows::{Holds, Row};
use crate::standing::{Body, Standing};
use crate::standings::Standings;
use page_directives::Faults;
use page_pieces::Prefixes;
use page_reader::{Closing, Element};
use pg_text::TranslationFault;

// Whether all of an element was read.
fn is_whole(closing: Closing) -> bool
    ensures { result ≡ is_whole closing }
{
    match closing {
        Closing::Open => false,
        _ => true,
    }
}

// The faults of the names that are given.
#[tactic(auto, unfolding(crate::specs::Check::given_faults))]
fn given_faults(row: &Row, closing: Closing, given: Given) -> Faults
    ensures { result ≡ in_order (given_faults (row_made row.now) closing (names_made given.entry)) }
{
    let lacking = is_whole(closing) && lacks(row.required, given);
    Faults::one_if(given.repeats(), TranslationFault::BadAttribute).and(names_faults(
        row, given,
    ).and(Faults::one_if(lacking, TranslationFault::BadAttribute)))
}

// Whether something else stands there than parts, white space apart.
fn others_stand(standing: &Standings) -> bool
    ensures { result ≡ other_stands is_part (map standing_made standing.now) }
{
    other_stands(Sort::Part, standing.as_slice())
}

// Whether something is refused that stands beside parts. In a choice without `jsp:attribute` that
// is a branch: all else has a fault at its own place.
fn stands_beside(library: &Prefixes, holds: Holds, standing: &Standings) -> bool
    ensures { result ≡ beside_by (λ prefix. contains_text prefix library.now) holds
        (map standing_made standing.now) }
{
    match holds {
        Holds::Branches if !element_stands(Sort::PartAttribute, standing.as_slice()) => {
            element_stands(Sort::Branch(library), standing.as_slice())
        }
        _ => others_stand(standing),
    }
}

// The faults of parts and what stands beside them.
fn split_faults_by(split: bool, beside: bool, standing: &Standings) -> Faults
    ensures { result ≡ in_order (split_by split beside (map standing_made standing.now)) }
{
    if !split {
        return Faults::none();
    }
    let two = two_stand(Sort::PartBody, standing.as_slice());
    Faults::one_if(beside, TranslationFault::BadBody).and(Faults::one_if(
        two,
        TranslationFault::BadNesting,
    ))
}

// The faults of what a body holds.
fn body_faults(library: &Prefixes, holds: Holds, closing: Closing, body: &[Standing]) -> Faults
    ensures { result ≡ in_order (holds_by (λ prefix. contains_text prefix library.now) holds closing
        (map standing_made body.now)) }
{
    let is_bad = match holds {
        Holds::Anything => false,
        Holds::Nothing => !nothing_stands(body),
        Holds::Params => other_stands(Sort::Param(library), body),
        Holds::Branches => is_whole(closing) && !element_stands(Sort::When(library), body),
    };
    Faults::one_if(is_bad, TranslationFault::BadBody)
}

// Whether exactly one of `var` and `target` is given, and `property` with `target` alone.
fn are_set_well(given: Given) -> bool
    ensures { result ≡ are_set_well (contains_text (codes "var") (names_made given.entry))
        (contains_text (codes "target") (names_made given.entry))
        (contains_text (codes "property") (names_made given.entry)) }
{
    let names = (
        given.contains("var"),
        given.contains("target"),
        given.contains("property"),
    );
    match names {
        (true, false, false) => true,
        (false, true, true) => true,
        _ => false,
    }
}

// The faults of `c:set` that its row doesn't say.
fn set_faults(closing: Closing, body: &[Standing], given: Given) -> Faults
    ensures { result ≡ in_order (own_by CoreName.Set closing (map standing_made body.now) (names_made given.entry)) }
{
    let both = given.contains("var") && given.contains("target");
    let ill_set = is_whole(closing) && !are_set_well(given);
    let two_values = is_whole(closing) && given.contains("value") && other_stands(Sort::No, body);
    Faults::one_if(both, TranslationFault::BadAttribute).and(Faults::one_if(
        ill_set,
        TranslationFault::BadAttribute,
    ).and(Faults::one_if(two_values, TranslationFault::BadBody)))
}

// The faults of a core tag that its row doesn't say.
fn own_faults_by(core: CoreName, closing: Closing, body: &[Standing], given: Given) -> Faults
    ensures { result ≡ in_order (own_by core closing (map standing_made body.now) (names_made given.entry)) }
{
    match core {
        CoreName::Set => set_faults(closing, body, given),
        CoreName::ForEach => {
            let endless = is_whole(closing)
                && !given.contains("items")
                && lacks(&["begin", "end"], given);
            Faults::one_if(endless, TranslationFault::BadAttribute)
        }
        _ => Faults::none(),
    }
}

// Whether the attributes or the body of an element are given by parts.
fn is_split(element: &Element, standing: &Standings) -> bool
    ensures { result ≡ split_in (opened_of element.now).tag (map standing_made standing.now) }
{
    takes_parts(element) && element_stands(Sort::Part, standing.as_slice())
}

// What stands in the body of an element, which may be given by `jsp:body`.
fn body_in<'a>(element: &Element, body: Body<'a>) -> &'a [Standing<'a>]
    ensures { map standing_made result.now ≡ body_in (opened_of element.now).tag
        (map standing_made body.entry.standing.now) (map standing_made body.entry.inner.now) }
{
    if is_split(element, body.standing) {
        body.inner
    } else {
        body.standing.as_slice()
    }
}

// The faults of an action by its row, by what stands in its body.
fn action_faults(library: &Prefixes, row: &Row, element: &Element, body: Body) -> Faults
    ensures { result ≡ in_order (action_by (λ prefix. contains_text prefix library.now) (row_made row.now)
        (opened_of element.now) (map standing_made body.entry.standing.now)
        (map standing_made body.entry.inner.now)) }
{
    let split = is_split(element, body.standing);
    let beside = stands_beside(library, row.holds, body.standing);
    let given = given_to(element, body.standing);
    let within = body_in(element, body);
    let closing = element.closing;
    let held = body_faults(library, row.holds, closing, within);
    given_faults(row, closing, given).and(split_faults_by(split, beside, body.standing).and(held))
}

// The faults of a core tag that its row doesn't say, by what stands in its body.
fn own_faults(core: CoreName, element: &Element, body: Body) -> Faults
    ensures { result ≡ in_order (own_of core (opened_of element.now)
        (map standing_made body.entry.standing.now) (map standing_made body.entry.inner.now)) }
{
    let given = given_to(element, body.standing);
    own_faults_by(core, element.closing, body_in(element, body), given)
}

/// Whether nothing stands in the body of an element, not even white space.
pub fn is_bodiless(element: &Element, body: Body) -> bool
    ensures { (tree : Tree) → IsBody body.entry tree →
        result ≡ is_empty (body_of (opened_of element.now).tag tree) }
{
    nothing_stands(body_in(element, body))
}

/// The faults of what stands beside `jsp:attribute` and `jsp:body` in an element.
pub fn split_faults(element: &Element, body: Body) -> Faults
    ensures { (tree : Tree) → IsBody body.entry tree →
        result ≡ in_order (split_faults (opened_of element.now).tag tree) }
{
    let split = is_split(element, body.standing);
    split_faults_by(split, others_stand(body.standing), body.standing)
}

/// The faults of an action with this body by its row. `library` are the prefixes of the core
/// library.
pub fn row_faults(library: &Prefixes, row: &Row, element: &Element, body: Body) -> Faults
    ensures { (tree : Tree) → IsBody body.entry tree →
        result ≡ in_order (row_faults (λ prefix. contains_text prefix library.now) (row_made row.now)
        (opened_of element.now) tree) }
{
    action_faults(library, row, element, body)
}

/// The faults of a core tag with this body at its beginning. `library` are the prefixes of the core
/// library.
pub fn core_faults(
    library: &Prefixes,
    found: (CoreName, Row),
    around: &[Host],
    element: &Element,
    body: Body,
) -> Faults
    ensures { (tree : Tree) → IsBody body.entry tree →
        result ≡ in_order (core_faults (λ prefix. contains_text prefix library.now)
        (found.0, row_made found.1) (map host_made around.now) (opened_of element.now) tree) }
{
    let (core, row) = found;
    place_faults(false, row.stands, around).and(action_faults(library, &row, element, body).and(
        own_faults(core, element, body),
    ))
}
