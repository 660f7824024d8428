ghost use Rattle.std.specs.Prelude.{◌≡◌, ◌∷◌, ◌&&◌, ◌||◌, [], codes, IfOk};
ghost use Rattle.std.specs.Option.{option_map};
ghost use Rattle.page_pieces.specs.Repeats.{has_name};
ghost use Rattle.page_pieces.specs.Settings.{value_of};
ghost use Rattle.page_directives.specs.Settings.{is_value};
ghost use Rattle.page_directives.specs.Faults.{in_order, is_good};
ghost use Rattle.page_directives.specs.Rows.{rows_of};
ghost use Rattle.tag_decl.specs.Declare.{declared};
ghost use Rattle.tag_decl.specs.Faults.{any_faults, are_good, attribute_directive_faults};
ghost use Rattle.tag_decl.specs.Faults.{attribute_table, clash_faults, declared_names};
ghost use Rattle.tag_decl.specs.Faults.{declaring_faults, has_one_name, is_named_well, is_text};
ghost use Rattle.tag_decl.specs.Faults.{may_name, variable_directive_faults};
ghost use Rattle.tag_decl.specs.Faults.{variable_table};

use crate::attr_decls::AttrDecls;
use crate::declaration::{AttrDecl, AttrKind, declared};
use crate::declared_before::DeclaredBefore;
use crate::names::declared_name;
use page_directives::{
    Check, Directive, Faults, FirstReading, TRUTHS, Table, attribute_faults, is_value,
    setting_faults,
};
use page_pieces::{Attributes, has_name};
use pg_text::TranslationFault;
use std::alloc::{AllocError, Global};

static ATTRIBUTE: [(&str, Check); 6] = [
    ("name", Check::Something),
    ("required", Check::OneOf(TRUTHS)),
    ("fragment", Check::OneOf(TRUTHS)),
    ("rtexprvalue", Check::OneOf(TRUTHS)),
    (
        "type",
        Check::LeftOutBut(&[
            "java.lang.String",
            "java.lang.Long",
            "java.lang.Integer",
            "java.lang.Boolean",
            "java.lang.Object",
            "java.util.List",
            "java.util.Collection",
            "java.util.Map",
        ]),
    ),
    ("description", Check::Anything),
];

static VARIABLE: [(&str, Check); 7] = [
    ("name-given", Check::Something),
    ("name-from-attribute", Check::Something),
    ("alias", Check::Something),
    ("scope", Check::OneOf(&["NESTED", "AT_BEGIN", "AT_END"])),
    ("variable-class", Check::Anything),
    ("declare", Check::Anything),
    ("description", Check::Anything),
];

// The attributes of `attribute`.
#[tactic(auto, unfolding(crate::specs::Faults::attribute_table))]
fn attribute_table() -> Table
    ensures { rows_of result.now ≡ attribute_table }
{
    &ATTRIBUTE
}

// The attributes of `variable`.
#[tactic(auto, unfolding(crate::specs::Faults::variable_table))]
fn variable_table() -> Table
    ensures { rows_of result.now ≡ variable_table }
{
    &VARIABLE
}

// The fault of a directive whose name was declared before.
fn clash_faults(before: &DeclaredBefore, directive: &Directive) -> Faults
    ensures { result ≡ in_order (clash_faults before.now (declared_names (directive.now ∷ []))) }
{
    match declared_name(directive) {
        Some(name) => Faults::one_if(before.declares(name), TranslationFault::Clash),
        None => Faults::none(),
    }
}

// Whether a fragment has an attribute `type` or `rtexprvalue`, which fragments may not have.
fn is_bad_fragment(attributes: &Attributes) -> bool
    ensures { result ≡ (is_value (codes "true") (value_of (codes "fragment") attributes.now) &&
        (has_name (codes "type") attributes.now || has_name (codes "rtexprvalue") attributes.now)) }
{
    is_value("true", attributes.plain("fragment"))
        && (has_name(attributes.as_slice(), "type")
            || has_name(attributes.as_slice(), "rtexprvalue"))
}

// The faults of an `attribute` directive behind the directives before it.
#[tactic(auto, unfolding(crate::specs::Faults::attribute_directive_faults))]
fn attribute_directive_faults(before: &DeclaredBefore, directive: &Directive) -> Faults
    ensures { result ≡ in_order (attribute_directive_faults before.now directive.now) }
{
    let attributes = directive.attributes();
    let unnamed = !has_name(attributes.as_slice(), "name");
    let repeats = attributes.repeats();
    attribute_faults(attribute_table(), attributes.as_slice()).and(Faults::one_if(
        unnamed,
        TranslationFault::BadDirective,
    ).and(Faults::one_if(is_bad_fragment(attributes), TranslationFault::BadDirective).and(
        Faults::one_if(repeats, TranslationFault::BadAttribute).and(clash_faults(
            before, directive,
        )),
    )))
}

// Whether an attribute may name a variable.
fn may_name(decl: Option<&AttrDecl>) -> bool
    ensures { result ≡ may_name (option_map (λ decl. decl.now) decl.entry) }
{
    match decl {
        Some(decl) => {
            decl.required && !decl.expression && decl.kind == AttrKind::Text && !decl.fragment
        }
        None => false,
    }
}

// Whether the attribute that names a variable is declared so.
fn is_named_well(decls: &AttrDecls, name: Option<&str>) -> bool
    ensures { result ≡ is_named_well decls.now (option_map (λ name. name.now) name.entry) }
{
    match name {
        Some(name) => may_name(declared(decls, name)),
        None => false,
    }
}

// Whether a variable has one name.
fn has_one_name(attributes: &Attributes) -> bool
    ensures { result ≡ has_one_name attributes.now }
{
    let given = has_name(attributes.as_slice(), "name-given");
    let from_attribute = has_name(attributes.as_slice(), "name-from-attribute");
    let alias = has_name(attributes.as_slice(), "alias");
    if given {
        !from_attribute && !alias
    } else {
        from_attribute && alias
    }
}

// The faults of a `variable` directive behind the directives before it.
#[tactic(auto, unfolding(crate::specs::Faults::variable_directive_faults))]
fn variable_directive_faults(
    decls: &AttrDecls,
    before: &DeclaredBefore,
    directive: &Directive,
) -> Faults
    ensures { result ≡ in_order (variable_directive_faults decls.now before.now directive.now) }
{
    let attributes = directive.attributes();
    let misnamed = !has_one_name(attributes);
    let ill_named = has_name(attributes.as_slice(), "name-from-attribute")
        && !is_named_well(decls, attributes.plain("name-from-attribute"));
    let repeats = attributes.repeats();
    attribute_faults(variable_table(), attributes.as_slice()).and(Faults::one_if(
        misnamed,
        TranslationFault::BadDirective,
    ).and(Faults::one_if(ill_named, TranslationFault::BadDirective).and(Faults::one_if(
        repeats,
        TranslationFault::BadAttribute,
    ).and(clash_faults(before, directive)))))
}

/// The faults of what a directive of a tag file with these declarations declares, behind the
/// directives before it.
#[tactic(auto, unfolding(crate::specs::Faults::declaring_faults))]
pub fn declaring_faults(decls: &AttrDecls, before: &DeclaredBefore, directive: &Directive) -> Faults
    ensures { result ≡ in_order (declaring_faults decls.now before.now directive.now) }
{
    match directive.name() {
        "attribute" => attribute_directive_faults(before, directive),
        "variable" => variable_directive_faults(decls, before, directive),
        _ => Faults::none(),
    }
}

// The faults of a directive for which a call isn't checked.
fn any_faults<'a>(
    decls: &AttrDecls,
    first: &FirstReading,
    before: &DeclaredBefore<'a>,
    directive: &Directive<'a>,
) -> Faults
    requires { first.now ≡ [] }
    ensures { result ≡ in_order (any_faults decls.now before.now directive.now) }
{
    if directive.is_named("tag") {
        setting_faults(true, first, before.settings(), directive)
    } else {
        declaring_faults(decls, before, directive)
    }
}

// Whether a directive has no fault for which a call isn't checked.
fn is_faultless<'a>(
    decls: &AttrDecls,
    first: &FirstReading,
    before: &DeclaredBefore<'a>,
    directive: &Directive<'a>,
) -> bool
    requires { first.now ≡ [] }
    ensures { result ≡ is_good (any_faults decls.now before.now directive.now) }
{
    any_faults(decls, first, before, directive).is_empty()
}

/// Whether the directives of a tag file that declare have no fault, so that calls are checked
/// against these declarations.
pub fn is_good(
    alloc: Global,
    decls: &AttrDecls,
    directives: Vec<Directive>,
) -> Result<bool, AllocError>
    ensures { IfOk result (λ good. good ≡ are_good decls.now [] directives.entry.items) }
{
    let first = FirstReading::new(Vec::new(alloc));
    let mut before = DeclaredBefore::new(alloc);
    for directive in directives {
        if !is_faultless(decls, &first, &before, &directive) {
            return Ok(false);
        }
        before = before.behind(directive)?;
    }
    Ok(true)
}
