ghost use Rattle.std.specs.Prelude.{◌≡◌, map};
ghost use Rattle.jstl_tags.specs.ReadSorts.{is_of, thing_is, thing_is_other};
ghost use Rattle.jstl_tags.specs.Standing.{standing_made};
ghost use Rattle.jstl_tags.specs.ReadStanding.{element_stands, nothing_stands};
ghost use Rattle.jstl_tags.specs.ReadStanding.{other_stands, two_stand};

use crate::standing::Standing;
use page_pieces::Prefixes;

// The elements for which a body is looked through. Prefixes are those of the core library.
#[derive(Clone, Copy)]
pub(crate) enum Sort<'a> {
    // `jsp:attribute` and `jsp:body`.
    Part,
    PartAttribute,
    PartBody,
    // A param of either family.
    Param(&'a Prefixes),
    When(&'a Prefixes),
    // A branch of a choice.
    Branch(&'a Prefixes),
    No,
}

// Whether what stands there is one of these elements.
fn is_of(sort: Sort, thing: Standing) -> bool
    ensures { result ≡ thing_is (is_of sort.entry) (standing_made thing.entry) }
{
    let Standing::Element { prefix, name, .. } = thing else {
        return false;
    };
    match sort {
        Sort::Part => prefix == "jsp" && name == "attribute" || prefix == "jsp" && name == "body",
        Sort::PartAttribute => prefix == "jsp" && name == "attribute",
        Sort::PartBody => prefix == "jsp" && name == "body",
        Sort::Param(library) => {
            prefix == "jsp" && name == "param" || library.contains(prefix) && name == "param"
        }
        Sort::When(library) => library.contains(prefix) && name == "when",
        Sort::Branch(library) => {
            library.contains(prefix) && name == "when"
                || library.contains(prefix) && name == "otherwise"
        }
        Sort::No => false,
    }
}

// Whether what stands there is neither white space nor one of these elements.
fn is_other(sort: Sort, thing: Standing) -> bool
    ensures { result ≡ thing_is_other (is_of sort.entry) (standing_made thing.entry) }
{
    match thing {
        Standing::Blank => false,
        Standing::Other => true,
        Standing::Element { .. } => !is_of(sort, thing),
    }
}

// Whether nothing stands there, not even white space.
#[tactic(auto, using(crate::proofs::StandingLemmas::none_stands))]
pub(crate) fn nothing_stands(standing: &[Standing]) -> bool
    ensures { result ≡ nothing_stands (map standing_made standing.now) }
{
    standing.is_empty()
}

// Whether something else stands there than these elements, white space apart.
pub(crate) fn other_stands(sort: Sort, standing: &[Standing]) -> bool
    ensures { result ≡ other_stands (is_of sort.entry) (map standing_made standing.now) }
{
    for thing in standing {
        if is_other(sort, *thing) {
            return true;
        }
    }
    false
}

// Whether one of these elements stands there.
pub(crate) fn element_stands(sort: Sort, standing: &[Standing]) -> bool
    ensures { result ≡ element_stands (is_of sort.entry) (map standing_made standing.now) }
{
    for thing in standing {
        if is_of(sort, *thing) {
            return true;
        }
    }
    false
}

// Whether two of these elements stand there.
pub(crate) fn two_stand(sort: Sort, standing: &[Standing]) -> bool
    ensures { result ≡ two_stand (is_of sort.entry) (map standing_made standing.now) }
{
    for (i, thing) in standing.iter().enumerate() {
        if is_of(sort, *thing) {
            return element_stands(sort, &standing[i + 1..]);
        }
    }
    false
}
