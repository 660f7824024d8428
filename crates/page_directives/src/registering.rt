ghost use Rattle.std.specs.Prelude.{◌≡◌};
ghost use Rattle.std.specs.Option.{option_map};
ghost use Rattle.page_directives.specs.Faults.{in_order};
ghost use Rattle.page_pieces.specs.Settings.{contains_text};
ghost use Rattle.page_directives.specs.Tables.{refused_prefixes};
ghost use Rattle.page_directives.specs.Taglibs.{clashes, is_prefix, registering_faults};
ghost use Rattle.page_directives.specs.Taglibs.{taglib_faults, target_of};

use crate::before::Before;
use crate::checks::attribute_faults;
use crate::directive::Directive;
use crate::faults::Faults;
use crate::tables::taglib_table;
use crate::target::{Target, is_same_target};
use crate::words::is_among;
use page_pieces::has_name;
use pg_text::TranslationFault;

const REFUSED_PREFIXES: [&str; 7] = ["jsp", "jspx", "java", "javax", "servlet", "sun", "sunw"];

// Whether another text is this prefix.
fn is_prefix(prefix: &str, other: Option<&str>) -> bool
    ensures { result ≡ is_prefix prefix.now (option_map (λ text. text.now) other.entry) }
{
    match other {
        Some(other) => other == prefix,
        None => false,
    }
}

/// What a prefix stands for behind these directives: the first target that was registered for it.
pub fn target_of<'d>(prefix: &str, directives: &'d [Directive]) -> Option<&'d Target>
    ensures { option_map (λ target. target.now) result ≡ target_of prefix.now directives.now }
{
    for directive in directives {
        if is_prefix(prefix, directive.prefix()) && directive.target().is_some() {
            return directive.target();
        }
    }
    None
}

// Whether two targets are registered for one prefix.
fn clashes(one: Option<&Target>, other: Option<&Target>) -> bool
    ensures { result ≡ clashes (option_map (λ target. target.now) one.entry)
        (option_map (λ target. target.now) other.entry) }
{
    match (one, other) {
        (Some(one), Some(other)) => !is_same_target(one, other),
        _ => false,
    }
}

// Whether the prefix may not be registered.
#[tactic(auto, unfolding(crate::specs::Tables::refused_prefixes))]
fn is_refused(prefix: &str) -> bool
    ensures { result ≡ contains_text prefix.now refused_prefixes }
{
    is_among(prefix, &REFUSED_PREFIXES)
}

// The faults of the prefix and its target.
#[tactic(auto, unfolding(crate::specs::Taglibs::registering_faults))]
fn registering_faults(before: &Before, prefix: Option<&str>, target: Option<&Target>) -> Faults
    ensures { result ≡ in_order (registering_faults before.now.prefixes before.now.directives
        (option_map (λ text. text.now) prefix.entry) (option_map (λ target. target.now) target.entry)) }
{
    let Some(prefix) = prefix else {
        return Faults::none();
    };
    if prefix.is_empty() {
        return Faults::none();
    }
    let is_bad = target.is_none() || is_refused(prefix) || before.has_prefix(prefix);
    let clashes = clashes(before.target(prefix), target);
    Faults::one_if(is_bad, TranslationFault::BadTaglib).and(Faults::one_if(
        clashes,
        TranslationFault::Clash,
    ))
}

// The faults of a taglib directive behind the directives before it and the prefixes that stood in
// text.
#[tactic(auto, unfolding(crate::specs::Taglibs::taglib_faults))]
pub(crate) fn taglib_faults(before: &Before, directive: &Directive) -> Faults
    ensures { result ≡ in_order (taglib_faults before.now.prefixes before.now.directives directive.now) }
{
    let attributes = directive.attributes();
    let unnamed = !has_name(attributes.as_slice(), "prefix");
    let registering = registering_faults(before, attributes.plain("prefix"), directive.target());
    attribute_faults(taglib_table(), attributes.as_slice()).and(Faults::one_if(
        unnamed,
        TranslationFault::BadDirective,
    ).and(Faults::one_if(attributes.repeats(), TranslationFault::BadAttribute).and(registering)))
}
