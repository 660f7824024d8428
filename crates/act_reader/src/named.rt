// What the attributes of an action name: texts without expressions, scopes, variables and
// properties.
ghost use Rattle.std.specs.Prelude.{◌≡◌, [], ◌∷◌, codes, map, IfOk};
ghost use Rattle.std.specs.List.{find};
ghost use Rattle.std.specs.Option.{option_map, unwrap_or};
ghost use Rattle.std.specs.Str.{bytes_eq};
ghost use Rattle.el_reader.specs.El.{tree_of};
ghost use Rattle.page_acts.specs.Views.{property_of, variable_of};
ghost use Rattle.unit_meaning.specs.Named.{name_in, plain_text, property_in, scope_named};
ghost use Rattle.unit_meaning.specs.Named.{some_variable, static_text, target_in, target_of};
ghost use Rattle.unit_meaning.specs.Named.{text_of_attribute, variable_in};
ghost use Rattle.unit_nodes.specs.Views.{given_of, part_of};

use el_reader::El;
use page_acts::{Property, Variable};
use pg_text::Text;
use pg_value::Scope;
use std::alloc::{AllocError, Global};
use unit_nodes::{UnitAttribute, UnitPart};

// The first attribute of a name.
fn attribute_named<'u>(attributes: &'u [UnitAttribute], wanted: &str) -> Option<&'u UnitAttribute>
    ensures { option_map (λ a. given_of a.now) result ≡ find (λ a. bytes_eq wanted.now a.name)
        (map given_of attributes.now) }
{
    for attribute in attributes {
        if wanted == attribute.name.as_str() {
            return Some(attribute);
        }
    }
    None
}

// The text of parts that hold no expression. Of one part it is a copy that shares the bytes.
fn plain_text(alloc: Global, parts: &[UnitPart]) -> Result<Text, AllocError>
    ensures { IfOk result (λ text. text ≡ plain_text (map part_of parts.now)) }
{
    match parts {
        [UnitPart::Text(text)] => text.copy(),
        _ => joined_text(alloc, parts),
    }
}

// The texts of parts joined.
fn joined_text(alloc: Global, parts: &[UnitPart]) -> Result<Text, AllocError>
    ensures { IfOk result (λ text. text ≡ plain_text (map part_of parts.now)) }
{
    let mut joined = String::new(alloc);
    for part in parts {
        joined.push_str(text_in(part))?;
    }
    Text::new(joined)
}

// The text of a part; the empty text of an expression.
fn text_in(part: &UnitPart) -> &str
    ensures { result.now ≡ plain_text (part_of part.now ∷ []) }
{
    match part {
        UnitPart::Text(text) => text.as_str(),
        UnitPart::Expr(_) => "",
    }
}

/// The text of the attribute of a name, where it was written.
pub(crate) fn static_text(
    alloc: Global,
    attributes: &[UnitAttribute],
    wanted: &str,
) -> Result<Option<Text>, AllocError>
    ensures { IfOk result (λ text. text ≡ static_text wanted.now (map given_of attributes.now)) }
{
    match attribute_named(attributes, wanted) {
        Some(attribute) => Ok(Some(plain_text(alloc, attribute.parts.as_slice())?)),
        None => Ok(None),
    }
}

/// The same, or else the empty text.
pub(crate) fn text_of_attribute(
    alloc: Global,
    attributes: &[UnitAttribute],
    wanted: &str,
) -> Result<Text, AllocError>
    ensures { IfOk result (λ text. text ≡ text_of_attribute wanted.now (map given_of attributes.now)) }
{
    match static_text(alloc, attributes, wanted)? {
        Some(text) => Ok(text),
        None => Text::copy_of(alloc, ""),
    }
}

/// Whether this is the text of the attribute of a name.
pub(crate) fn attribute_is(
    alloc: Global,
    attributes: &[UnitAttribute],
    wanted: &str,
    text: &str,
) -> Result<bool, AllocError>
    ensures { IfOk result (λ is. is
        ≡ bytes_eq (text_of_attribute wanted.now (map given_of attributes.now)) text.now) }
{
    let written = text_of_attribute(alloc, attributes, wanted)?;
    Ok(written.as_str() == text)
}

/// The scope of a name; page scope of any other.
pub(crate) fn scope_named(name: &str) -> Scope
    ensures { result ≡ scope_named name.now }
{
    if name == "request" {
        Scope::Request
    } else if name == "session" {
        Scope::Session
    } else if name == "application" {
        Scope::Application
    } else {
        Scope::Page
    }
}

/// The scope of the bean that attributes name.
pub(crate) fn scope_of_bean(
    alloc: Global,
    attributes: &[UnitAttribute],
) -> Result<Scope, AllocError>
    ensures { IfOk result (λ scope. scope
        ≡ scope_named (text_of_attribute (codes "scope") (map given_of attributes.now))) }
{
    let name = text_of_attribute(alloc, attributes, "scope")?;
    Ok(scope_named(name.as_str()))
}

// The scope that attributes name, where they name one.
fn scope_in(alloc: Global, attributes: &[UnitAttribute]) -> Result<Option<Scope>, AllocError>
    ensures { IfOk result (λ scope. scope ≡ option_map scope_named
        (static_text (codes "scope") (map given_of attributes.now))) }
{
    match static_text(alloc, attributes, "scope")? {
        Some(name) => Ok(Some(scope_named(name.as_str()))),
        None => Ok(None),
    }
}

/// The variable that attributes name; one of the empty name where they name none.
pub(crate) fn variable_in(
    alloc: Global,
    attributes: &[UnitAttribute],
) -> Result<Variable, AllocError>
    ensures { IfOk result (λ variable. variable_of variable ≡ variable_in (map given_of attributes.now)) }
{
    Ok(Variable {
        name: text_of_attribute(alloc, attributes, "var")?,
        scope: scope_in(alloc, attributes)?,
    })
}

/// The variable that attributes name, where they name one.
pub(crate) fn some_variable(
    alloc: Global,
    attributes: &[UnitAttribute],
) -> Result<Option<Variable>, AllocError>
    ensures { IfOk result (λ variable. option_map variable_of variable
        ≡ some_variable (map given_of attributes.now)) }
{
    match static_text(alloc, attributes, "var")? {
        Some(name) => Ok(Some(Variable {
            name,
            scope: scope_in(alloc, attributes)?,
        })),
        None => Ok(None),
    }
}

// The name that an expression is; the empty text of any other.
fn name_in(alloc: Global, el: &El) -> Result<Text, AllocError>
    ensures { IfOk result (λ name. name ≡ name_in (tree_of el.now)) }
{
    match el {
        El::Name(name) => name.copy(),
        _ => Text::copy_of(alloc, ""),
    }
}

// The variable whose entry is set, by the parts of `target`; the empty text where they name none.
fn target_of(alloc: Global, parts: &[UnitPart]) -> Result<Text, AllocError>
    ensures { IfOk result (λ target. target ≡ target_of (map part_of parts.now)) }
{
    match parts {
        [UnitPart::Expr(el), ..] => name_in(alloc, el),
        _ => Text::copy_of(alloc, ""),
    }
}

/// The variable that the attribute `target` names, where there is one.
pub(crate) fn target_in(
    alloc: Global,
    attributes: &[UnitAttribute],
) -> Result<Option<Text>, AllocError>
    ensures { IfOk result (λ target. target ≡ target_in (map given_of attributes.now)) }
{
    match attribute_named(attributes, "target") {
        Some(attribute) => Ok(Some(target_of(alloc, attribute.parts.as_slice())?)),
        None => Ok(None),
    }
}

/// What `jsp:setProperty` sets.
pub(crate) fn property_in(
    alloc: Global,
    attributes: &[UnitAttribute],
) -> Result<Property, AllocError>
    ensures { IfOk result (λ property. property_of property ≡ property_in (map given_of attributes.now)) }
{
    let property = text_of_attribute(alloc, attributes, "property")?;
    if property.as_str() == "*" {
        return Ok(Property::Every);
    }
    let parameter = parameter_of(alloc, attributes, &property)?;
    Ok(Property::One {
        property,
        parameter,
    })
}

// The parameter of a property: the one that `param` names, or else that of the property's name.
fn parameter_of(
    alloc: Global,
    attributes: &[UnitAttribute],
    property: &Text,
) -> Result<Text, AllocError>
    ensures { IfOk result (λ parameter. parameter
        ≡ unwrap_or (static_text (codes "param") (map given_of attributes.now)) property.now) }
{
    match static_text(alloc, attributes, "param")? {
        Some(parameter) => Ok(parameter),
        None => property.copy(),
    }
}
