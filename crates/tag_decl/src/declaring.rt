ghost use Rattle.std.specs.Prelude.{◌≡◌, ◌++◌, codes, IfOk, OnOk};
ghost use Rattle.std.specs.Option.{option_map};
ghost use Rattle.page_pieces.specs.Settings.{value_of};
ghost use Rattle.page_directives.specs.Settings.{decided, given};
ghost use Rattle.page_directives.specs.Tables.{tag_table};
ghost use Rattle.tag_decl.specs.Declare.{attribute_in, attribute_named, attributes_of, declaration};
ghost use Rattle.tag_decl.specs.Declare.{variable_in, variable_name, variables_of};

use crate::attr_decls::AttrDecls;
use crate::declaration::{AttrDecl, TagDecl, VarDecl, VarDecls};
use crate::named::{body_or_scriptless, kind_in, scope_or_nested};
use page_directives::{Directive, decided, is_value, tag_table, truth_or};
use page_pieces::Attributes;
use pg_text::{Listed, Text};
use std::alloc::{AllocError, Global};

// A copy of a text, where there is one.
fn text_of(alloc: Global, value: Option<&str>) -> Result<Option<Text>, AllocError>
    ensures { IfOk result (λ text. text ≡ option_map (λ text. text.now) value.entry) }
{
    match value {
        Some(text) => Ok(Some(Text::copy_of(alloc, text)?)),
        None => Ok(None),
    }
}

// The attribute that an `attribute` directive with this name declares.
fn attribute_named(
    alloc: Global,
    attributes: &Attributes,
    name: &str,
) -> Result<AttrDecl, AllocError>
    ensures { IfOk result (λ decl. decl ≡ attribute_named attributes.now name.now) }
{
    Ok(AttrDecl {
        name: Text::copy_of(alloc, name)?,
        required: truth_or(false, attributes.plain("required")),
        fragment: truth_or(false, attributes.plain("fragment")),
        expression: !is_value("false", attributes.plain("rtexprvalue")),
        kind: kind_in(attributes),
    })
}

// Adds the attribute that an `attribute` directive declares.
fn push_attribute(
    alloc: Global,
    decls: &mut Listed<AttrDecl>,
    attributes: &Attributes,
) -> Result<(), AllocError>
    ensures { OnOk result (decls.new ≡ decls.old ++ attribute_in attributes.now
        (value_of (codes "name") attributes.now)) }
{
    if let Some(name) = attributes.plain("name") {
        decls.push(attribute_named(alloc, attributes, name)?)?;
    }
    Ok(())
}

// The attributes that directives declare, in the order written.
fn attributes_of(alloc: Global, directives: &[Directive]) -> Result<Listed<AttrDecl>, AllocError>
    ensures { IfOk result (λ decls. decls ≡ attributes_of directives.now) }
{
    let mut decls = Listed::empty(alloc);
    for directive in directives {
        if directive.is_named("attribute") {
            push_attribute(alloc, &mut decls, directive.attributes())?;
        }
    }
    Ok(decls)
}

// The name of a variable in the tag file: its given name, or its alias.
pub(crate) fn variable_name(attributes: &Attributes) -> Option<&str>
    ensures { option_map (λ name. name.now) result ≡ variable_name attributes.now }
{
    match attributes.plain("name-given") {
        Some(name) => Some(name),
        None => attributes.plain("alias"),
    }
}

// Adds the variable that a `variable` directive declares.
fn push_variable(
    alloc: Global,
    decls: &mut VarDecls,
    attributes: &Attributes,
) -> Result<(), AllocError>
    ensures { OnOk result (decls.new ≡ decls.old ++ variable_in attributes.now (variable_name attributes.now)) }
{
    if let Some(name) = variable_name(attributes) {
        decls.push(VarDecl {
            name: Text::copy_of(alloc, name)?,
            from: text_of(alloc, attributes.plain("name-from-attribute"))?,
            scope: scope_or_nested(attributes.plain("scope")),
        })?;
    }
    Ok(())
}

// The variables that directives declare, in the order written.
fn variables_of(alloc: Global, directives: &[Directive]) -> Result<VarDecls, AllocError>
    ensures { IfOk result (λ decls. decls ≡ variables_of directives.now) }
{
    let mut decls = Listed::empty(alloc);
    for directive in directives {
        if directive.is_named("variable") {
            push_variable(alloc, &mut decls, directive.attributes())?;
        }
    }
    Ok(decls)
}

// What the `tag` directives decide of an attribute.
fn decided_by_tag<'a>(directives: &[Directive<'a>], name: &str) -> Option<&'a str>
    ensures { option_map (λ text. text.now) result
        ≡ decided tag_table name.now (given (codes "tag") directives.now) }
{
    decided(tag_table(), "tag", directives, name)
}

/// What the directives of a tag file declare.
#[tactic(auto, unfolding(crate::specs::Declare::declaration))]
pub fn declare(alloc: Global, directives: &[Directive]) -> Result<TagDecl, AllocError>
    ensures { IfOk result (λ declared. declared ≡ declaration directives.now) }
{
    let body = decided_by_tag(directives, "body-content");
    let dynamic = decided_by_tag(directives, "dynamic-attributes");
    Ok(TagDecl {
        attributes: AttrDecls::new(alloc, attributes_of(alloc, directives)?)?,
        variables: variables_of(alloc, directives)?,
        body: body_or_scriptless(body),
        dynamic: text_of(alloc, dynamic)?,
    })
}
