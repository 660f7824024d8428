ghost use Rattle.std.specs.Prelude.{◌≡◌, map};
ghost use Rattle.std.specs.Option.{option_map};
ghost use Rattle.page_directives.specs.Faults.{in_order};
ghost use Rattle.jstl_tags.specs.Check.{branch_faults, child_faults, misplaced_faults};
ghost use Rattle.jstl_tags.specs.Check.{place_faults, takes_core_params, takes_params, takes_part};
ghost use Rattle.jstl_tags.specs.Check.{unless_part};
ghost use Rattle.jstl_tags.specs.Hosts.{host_made};

use crate::core_name::CoreName;
use crate::host::{Host, host_of, in_choose, in_text};
use crate::rows::Stands;
use page_directives::{Faults, is_among};
use pg_text::TranslationFault;

/// The faults of an element that stands in a choice or in a text, and is no part of it.
pub fn child_faults(around: &[Host]) -> Faults
    ensures { result ≡ in_order (child_faults (map host_made around.now)) }
{
    Faults::one_if(in_choose(around), TranslationFault::BadNesting).and(Faults::one_if(
        in_text(around),
        TranslationFault::BadBody,
    ))
}

// The faults of an element that stands outside its place.
fn misplaced_faults(around: &[Host]) -> Faults
    ensures { result ≡ in_order (misplaced_faults (map host_made around.now)) }
{
    Faults::one(TranslationFault::BadNesting).and(child_faults(around))
}

// No fault where the element is a part of the action around it, else those of one outside its
// place.
fn unless_part(is_part: bool, around: &[Host]) -> Faults
    ensures { result ≡ in_order (unless_part is_part (map host_made around.now)) }
{
    if is_part {
        Faults::none()
    } else {
        misplaced_faults(around)
    }
}

// Whether a core param stands in a tag that takes it.
fn takes_core_params(host: Option<Host>) -> bool
    ensures { result ≡ takes_core_params (option_map host_made host.entry) }
{
    match host {
        Some(
            Host::Core {
                core: CoreName::Import,
                ..
            },
        ) => true,
        Some(
            Host::Core {
                core: CoreName::Url,
                ..
            },
        ) => true,
        Some(
            Host::Core {
                core: CoreName::Redirect,
                ..
            },
        ) => true,
        _ => false,
    }
}

// Whether a standard param stands in an action that takes it.
fn takes_params(host: Option<Host>) -> bool
    ensures { result ≡ takes_params (option_map host_made host.entry) }
{
    match host {
        Some(Host::Standard(name)) => name == "include" || name == "forward",
        _ => false,
    }
}

// Whether a part stands in an action that takes parts.
fn takes_part(around: &[Host]) -> bool
    ensures { result ≡ takes_part (map host_made around.now) }
{
    match around.first() {
        None => false,
        Some(Host::Other) => false,
        Some(Host::Standard(name)) => { !is_among(name, &["attribute", "body", "text"]) }
        Some(_) => true,
    }
}

// The faults of where a branch stands.
fn branch_faults(host: Option<Host>, around: &[Host]) -> Faults
    ensures { result ≡ in_order (branch_faults (option_map host_made host.entry)
        (misplaced_faults (map host_made around.now))) }
{
    match host {
        Some(
            Host::Core {
                core: CoreName::Choose,
                otherwise,
            },
        ) => Faults::one_if(otherwise, TranslationFault::BadNesting),
        _ => misplaced_faults(around),
    }
}

/// The faults of where an action stands.
#[tactic(auto, unfolding(crate::specs::Check::place_faults))]
pub fn place_faults(in_tag: bool, stands: Stands, around: &[Host]) -> Faults
    ensures { result ≡ in_order (place_faults in_tag stands (map host_made around.now)) }
{
    match stands {
        Stands::Anywhere => child_faults(around),
        Stands::CoreParam => unless_part(takes_core_params(host_of(around)), around),
        Stands::StandardParam => unless_part(takes_params(host_of(around)), around),
        Stands::Branch => branch_faults(host_of(around), around),
        Stands::Part => unless_part(takes_part(around), around),
        Stands::InTagFile => Faults::one_if(!in_tag, TranslationFault::BadNesting).and(child_faults(
            around,
        )),
    }
}
