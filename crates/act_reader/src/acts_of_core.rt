// The acts of core tags. In contracts `parts_view` is what the parts are in the meaning of pages.
#![tactic(auto, using(page_acts::proofs::Rows::rows))]

ghost use Rattle.std.specs.Prelude.{◌≡◌, codes, map, IfOk};
ghost use Rattle.act_reader.specs.Parts.{parts_view};
ghost use Rattle.page_acts.specs.Views.{act_of};
ghost use Rattle.jstl_tags.specs.declared.core_name.CoreName.TheVariants as core;
ghost use Rattle.page_meaning.specs.Page as page;
ghost use Rattle.unit_meaning.specs.Named.{some_variable, static_text, variable_in};
ghost use Rattle.unit_meaning.specs.Shape.{core_node};
ghost use Rattle.unit_nodes.specs.Views.{given_of};

use crate::named::{some_variable, static_text, target_in, variable_in};
use crate::parts::Parts;
use crate::roles::nothing;
use jstl_tags::CoreName;
use page_acts::{Act, Addressing, Enclosing};
use std::alloc::{AllocError, Global};
use unit_nodes::Action;

/// The act of a core tag of these parts. Params and branches have none of their own.
pub(crate) fn core_act<'u>(
    alloc: Global,
    name: CoreName,
    action: &'u Action,
    parts: Parts<'u>,
) -> Result<Act<'u>, AllocError>
    ensures { IfOk result (λ act. act_of act ≡ core_node name (map given_of action.now.attributes)
        (parts_view parts.entry).attributes (parts_view parts.entry).content action.now.place) }
{
    match name {
        CoreName::Out => Ok(parts.enclosed(Enclosing::Out, &action.place)),
        CoreName::Set => set(alloc, action, parts),
        CoreName::Remove => remove(alloc, action),
        CoreName::Catch => catch(alloc, action, parts),
        CoreName::If => when_true(alloc, action, parts),
        CoreName::Choose => Ok(choose(action, parts)),
        CoreName::When => Ok(nothing(alloc, &action.place)),
        CoreName::Otherwise => Ok(nothing(alloc, &action.place)),
        CoreName::ForEach => for_each(alloc, action, parts),
        CoreName::ForTokens => for_tokens(alloc, action, parts),
        CoreName::Import => import(alloc, action, parts),
        CoreName::Url => url(alloc, action, parts),
        CoreName::Redirect => Ok(parts.addressed(Addressing::Redirect, &action.place)),
        CoreName::Param => Ok(nothing(alloc, &action.place)),
    }
}

// `c:set`, of a variable or of an entry.
fn set<'u>(alloc: Global, action: &'u Action, parts: Parts<'u>) -> Result<Act<'u>, AllocError>
    ensures { IfOk result (λ act. act_of act ≡ core_node core.Set (map given_of action.now.attributes)
        (parts_view parts.entry).attributes (parts_view parts.entry).content action.now.place) }
{
    let attributes = action.attributes.as_slice();
    match target_in(alloc, attributes)? {
        Some(target) => Ok(parts.enclosed(Enclosing::SetEntry(target), &action.place)),
        None => {
            let variable = variable_in(alloc, attributes)?;
            Ok(parts.enclosed(Enclosing::Set(variable), &action.place))
        }
    }
}

// `c:remove`.
fn remove<'u>(alloc: Global, action: &'u Action) -> Result<Act<'u>, AllocError>
    ensures { IfOk result (λ act. act_of act ≡ page.remove (variable_in (map given_of action.now.attributes))
        action.now.place) }
{
    Ok(Act::Remove {
        variable: variable_in(alloc, action.attributes.as_slice())?,
        place: &action.place,
    })
}

// `c:catch`.
fn catch<'u>(alloc: Global, action: &'u Action, parts: Parts<'u>) -> Result<Act<'u>, AllocError>
    ensures { IfOk result (λ act. act_of act
        ≡ page.catch (static_text (codes "var") (map given_of action.now.attributes))
        (parts_view parts.entry).content.nodes action.now.place) }
{
    Ok(Act::Catch {
        variable: static_text(alloc, action.attributes.as_slice(), "var")?,
        body: parts.body,
        place: &action.place,
    })
}

// `c:if`.
fn when_true<'u>(alloc: Global, action: &'u Action, parts: Parts<'u>) -> Result<Act<'u>, AllocError>
    ensures { IfOk result (λ act. act_of act
        ≡ page.when_true (some_variable (map given_of action.now.attributes))
        (parts_view parts.entry).attributes (parts_view parts.entry).content.nodes action.now.place) }
{
    let variable = some_variable(alloc, action.attributes.as_slice())?;
    Ok(parts.enclosed(Enclosing::If(variable), &action.place))
}

// `c:choose`: its branches, which were read from its `c:when` and `c:otherwise` before.
fn choose<'u>(action: &'u Action, parts: Parts<'u>) -> Act<'u>
    ensures { act_of result ≡ page.choose (parts_view parts.entry).content.branches action.now.place }
{
    Act::Choose {
        branches: parts.branches,
        place: &action.place,
    }
}

// `c:forEach`.
fn for_each<'u>(alloc: Global, action: &'u Action, parts: Parts<'u>) -> Result<Act<'u>, AllocError>
    ensures { IfOk result (λ act. act_of act
        ≡ page.each (static_text (codes "var") (map given_of action.now.attributes))
        (static_text (codes "varStatus") (map given_of action.now.attributes))
        (parts_view parts.entry).attributes (parts_view parts.entry).content.nodes action.now.place) }
{
    let attributes = action.attributes.as_slice();
    let kind = Enclosing::ForEach {
        variable: static_text(alloc, attributes, "var")?,
        status: static_text(alloc, attributes, "varStatus")?,
    };
    Ok(parts.enclosed(kind, &action.place))
}

// `c:forTokens`.
fn for_tokens<'u>(
    alloc: Global,
    action: &'u Action,
    parts: Parts<'u>,
) -> Result<Act<'u>, AllocError>
    ensures { IfOk result (λ act. act_of act
        ≡ page.each_token (static_text (codes "var") (map given_of action.now.attributes))
        (static_text (codes "varStatus") (map given_of action.now.attributes))
        (parts_view parts.entry).attributes (parts_view parts.entry).content.nodes action.now.place) }
{
    let attributes = action.attributes.as_slice();
    let kind = Enclosing::ForTokens {
        variable: static_text(alloc, attributes, "var")?,
        status: static_text(alloc, attributes, "varStatus")?,
    };
    Ok(parts.enclosed(kind, &action.place))
}

// `c:import`.
fn import<'u>(alloc: Global, action: &'u Action, parts: Parts<'u>) -> Result<Act<'u>, AllocError>
    ensures { IfOk result (λ act. act_of act
        ≡ page.import (some_variable (map given_of action.now.attributes)) (parts_view parts.entry).attributes
        (parts_view parts.entry).content.params action.now.place) }
{
    let variable = some_variable(alloc, action.attributes.as_slice())?;
    Ok(parts.addressed(Addressing::Import(variable), &action.place))
}

// `c:url`.
fn url<'u>(alloc: Global, action: &'u Action, parts: Parts<'u>) -> Result<Act<'u>, AllocError>
    ensures { IfOk result (λ act. act_of act ≡ page.url (some_variable (map given_of action.now.attributes))
        (parts_view parts.entry).attributes (parts_view parts.entry).content.params action.now.place) }
{
    let variable = some_variable(alloc, action.attributes.as_slice())?;
    Ok(parts.addressed(Addressing::Url(variable), &action.place))
}
