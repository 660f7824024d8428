ghost use Rattle.std.specs.Prelude.{◌≡◌};
ghost use Rattle.std.specs.Option.{option_map, option_or};
ghost use Rattle.tag_decl.specs.Names.{attribute_name, variable_of};

use crate::declaring::variable_name;
use page_directives::Directive;

// The name of the attribute that an `attribute` directive declares.
pub(crate) fn attribute_name<'a>(directive: &Directive<'a>) -> Option<&'a str>
    ensures { option_map (λ name. name.now) result ≡ attribute_name directive.now }
{
    if directive.is_named("attribute") {
        directive.attributes().plain("name")
    } else {
        None
    }
}

// The name of the variable that a `variable` directive declares.
pub(crate) fn variable_of<'a>(directive: &Directive<'a>) -> Option<&'a str>
    ensures { option_map (λ name. name.now) result ≡ variable_of directive.now }
{
    if directive.is_named("variable") {
        variable_name(directive.attributes())
    } else {
        None
    }
}

// The name that a directive declares.
pub(crate) fn declared_name<'a>(directive: &Directive<'a>) -> Option<&'a str>
    ensures { option_map (λ name. name.now) result ≡ option_or (attribute_name directive.now)
        (variable_of directive.now) }
{
    match attribute_name(directive) {
        Some(name) => Some(name),
        None => variable_of(directive),
    }
}
