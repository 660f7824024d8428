// The acts of standard actions.
#![tactic(auto, using(page_acts::proofs::Rows::rows))]

ghost use Rattle.std.specs.Prelude.{◌≡◌, codes, map, IfOk};
ghost use Rattle.std.specs.Str.{bytes_eq};
ghost use Rattle.act_reader.specs.Parts.{parts_view};
ghost use Rattle.page_acts.specs.Views.{act_of};
ghost use Rattle.page_meaning.specs.Page as page;
ghost use Rattle.unit_meaning.specs.Named.{property_in, scope_named, some_variable};
ghost use Rattle.unit_meaning.specs.Named.{text_of_attribute};
ghost use Rattle.unit_meaning.specs.Shape.{jsp_node};
ghost use Rattle.unit_nodes.specs.Views.{given_of};

use crate::named::{attribute_is, property_in, scope_of_bean, some_variable, text_of_attribute};
use crate::parts::Parts;
use crate::roles::nothing;
use page_acts::{Act, Addressing};
use std::alloc::{AllocError, Global};
use unit_nodes::{Action, JspName};

/// The act of a standard action of these parts. `jsp:attribute`, `jsp:body` and params have none of
/// their own.
pub(crate) fn jsp_act<'u>(
    alloc: Global,
    name: JspName,
    action: &'u Action,
    parts: Parts<'u>,
) -> Result<Act<'u>, AllocError>
    ensures { IfOk result (λ act. act_of act ≡ jsp_node name (map given_of action.now.attributes)
        (parts_view parts.entry).attributes (parts_view parts.entry).content action.now.place) }
{
    match name {
        JspName::Include => include(alloc, action, parts),
        JspName::Forward => Ok(parts.addressed(Addressing::Forward, &action.place)),
        JspName::Param => Ok(nothing(alloc, &action.place)),
        JspName::UseBean => use_bean(alloc, action, parts),
        JspName::GetProperty => get_property(alloc, action),
        JspName::SetProperty => set_property(alloc, action, parts),
        JspName::Attribute => Ok(nothing(alloc, &action.place)),
        JspName::Body => Ok(nothing(alloc, &action.place)),
        JspName::Text => Ok(text(action, parts)),
        JspName::DoBody => do_body(alloc, action),
        JspName::Invoke => invoke(alloc, action),
    }
}

// `jsp:include`.
fn include<'u>(alloc: Global, action: &'u Action, parts: Parts<'u>) -> Result<Act<'u>, AllocError>
    ensures { IfOk result (λ act. act_of act
        ≡ page.include (bytes_eq (text_of_attribute (codes "flush") (map given_of action.now.attributes))
        (codes "true")) (parts_view parts.entry).attributes (parts_view parts.entry).content.params
        action.now.place) }
{
    let flush = attribute_is(alloc, action.attributes.as_slice(), "flush", "true")?;
    Ok(parts.addressed(Addressing::Include(flush), &action.place))
}

// `jsp:useBean`.
fn use_bean<'u>(alloc: Global, action: &'u Action, parts: Parts<'u>) -> Result<Act<'u>, AllocError>
    ensures { IfOk result (λ act. act_of act
        ≡ page.use_bean (text_of_attribute (codes "id") (map given_of action.now.attributes))
        (scope_named (text_of_attribute (codes "scope") (map given_of action.now.attributes)))
        (text_of_attribute (codes "class") (map given_of action.now.attributes))
        (parts_view parts.entry).content.nodes action.now.place) }
{
    let attributes = action.attributes.as_slice();
    Ok(Act::UseBean {
        scope: scope_of_bean(alloc, attributes)?,
        name: text_of_attribute(alloc, attributes, "id")?,
        class: text_of_attribute(alloc, attributes, "class")?,
        body: parts.body,
        place: &action.place,
    })
}

// `jsp:getProperty`.
fn get_property<'u>(alloc: Global, action: &'u Action) -> Result<Act<'u>, AllocError>
    ensures { IfOk result (λ act. act_of act
        ≡ page.get_property (text_of_attribute (codes "name") (map given_of action.now.attributes))
        (text_of_attribute (codes "property") (map given_of action.now.attributes)) action.now.place) }
{
    let attributes = action.attributes.as_slice();
    Ok(Act::GetProperty {
        name: text_of_attribute(alloc, attributes, "name")?,
        property: text_of_attribute(alloc, attributes, "property")?,
        place: &action.place,
    })
}

// `jsp:setProperty`.
fn set_property<'u>(
    alloc: Global,
    action: &'u Action,
    parts: Parts<'u>,
) -> Result<Act<'u>, AllocError>
    ensures { IfOk result (λ act. act_of act
        ≡ page.set_property (text_of_attribute (codes "name") (map given_of action.now.attributes))
        (property_in (map given_of action.now.attributes)) (parts_view parts.entry).attributes action.now.place) }
{
    let attributes = action.attributes.as_slice();
    Ok(Act::SetProperty {
        name: text_of_attribute(alloc, attributes, "name")?,
        property: property_in(alloc, attributes)?,
        attributes: parts.attributes,
        place: &action.place,
    })
}

// `jsp:text`.
fn text<'u>(action: &'u Action, parts: Parts<'u>) -> Act<'u>
    ensures { act_of result ≡ page.group (parts_view parts.entry).content.nodes action.now.place }
{
    Act::Group {
        body: parts.body,
        place: &action.place,
    }
}

// `jsp:doBody`.
fn do_body<'u>(alloc: Global, action: &'u Action) -> Result<Act<'u>, AllocError>
    ensures { IfOk result (λ act. act_of act
        ≡ page.do_body (some_variable (map given_of action.now.attributes)) action.now.place) }
{
    Ok(Act::DoBody {
        variable: some_variable(alloc, action.attributes.as_slice())?,
        place: &action.place,
    })
}

// `jsp:invoke`.
fn invoke<'u>(alloc: Global, action: &'u Action) -> Result<Act<'u>, AllocError>
    ensures { IfOk result (λ act. act_of act
        ≡ page.invoke (text_of_attribute (codes "fragment") (map given_of action.now.attributes))
        (some_variable (map given_of action.now.attributes)) action.now.place) }
{
    let attributes = action.attributes.as_slice();
    Ok(Act::Invoke {
        fragment: text_of_attribute(alloc, attributes, "fragment")?,
        variable: some_variable(alloc, attributes)?,
        place: &action.place,
    })
}
