ghost use Rattle.std.specs.Prelude.{◌≡◌, OnOk};
ghost use Rattle.page_directives.specs.Faults.{in_order};
ghost use Rattle.unit_source.specs.Placed.{root_view};
ghost use Rattle.unit_words.specs.Walk.{leaf_met, nesting_faults, text_faults};
ghost use Rattle.unit_judges.specs.Made.{here_made};
ghost use Rattle.unit_build.specs.ReadFound.{IsRead, state_in};
ghost use Rattle.unit_build.specs.ReadWalk.{IsOwn};

use crate::course::Course;
use crate::found::Found;
use page_directives::Faults;
use page_pieces::Leaf;
use pg_text::{Place, TranslationFault};
use std::alloc::{AllocError, Global};
use unit_judges::{Here, expression_faults, is_white};

// The fault of what stands in a choice.
fn nesting_faults(here: Here) -> Faults
    ensures { result ≡ in_order (nesting_faults (here_made here.entry)) }
{
    Faults::one_if(here.in_choose(), TranslationFault::BadNesting)
}

// The fault of text that stands in a choice.
fn text_faults(here: Here, text: &[u8]) -> Faults
    ensures { result ≡ in_order (text_faults (here_made here.entry) text.now) }
{
    if is_white(text) {
        Faults::none()
    } else {
        nesting_faults(here)
    }
}

/// Meets a leaf.
#[inline(never)]
#[tactic(auto, using(crate::proofs::FoundLemmas::read_met, crate::proofs::FoundLemmas::read_none))]
pub(crate) fn meet_leaf<'r>(
    alloc: Global,
    course: &mut Course<'r>,
    here: &Here,
    leaf: &'r Leaf,
    place: &'r Place,
    found: &mut Found,
) -> Result<(), AllocError>
    requires { IsOwn course.now }
    ensures root { OnOk result (course.new.root ≡ course.old.root) }
    ensures own { OnOk result (IsOwn course.new) }
    ensures met { OnOk result (IsRead found.old found.new (state_in course.new.before found.new)
        (leaf_met (root_view course.old.root) (here_made here.now) leaf.now place.now
        (state_in course.old.before found.old))) }
{
    match leaf {
        Leaf::Text(text) => {
            found.meet(place, text_faults(*here, text.as_bytes()))?;
            course.meet_text(text.as_str())
        }
        Leaf::Comment => Ok(()),
        Leaf::Expr(text) => {
            let faults = expression_faults(alloc, &course.before, text, &mut found.readings)?;
            found.meet(place, nesting_faults(*here).and(faults))
        }
        Leaf::Hash => {
            let hash = Faults::one(TranslationFault::ElNotHere);
            found.meet(place, nesting_faults(*here).and(hash))
        }
        Leaf::Directive(name, attributes) => {
            let faults = course.meet(alloc, name.as_str(), attributes, place)?;
            found.meet(place, faults)
        }
    }
}
