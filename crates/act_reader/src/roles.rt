// What becomes of an action.
ghost use Rattle.std.specs.Prelude.{◌≡◌, map, OnOk, IfOk, true, false};
ghost use Rattle.act_reader.specs.Contents.{Adds, children_view, with_branch, with_given};
ghost use Rattle.act_reader.specs.Contents.{with_held, with_param};
ghost use Rattle.act_reader.specs.Parts.{parts_view};
ghost use Rattle.act_reader.specs.Roles.{role_of, with_nothing};
ghost use Rattle.page_acts.specs.Views.{act_of, acts_of, attribute_before};
ghost use Rattle.page_meaning.specs.Page.{Attributes, group, no_nodes};
ghost use Rattle.unit_meaning.specs.Shape.{action_node, branch_if, given_if, param_if, with_action};
ghost use Rattle.unit_nodes.specs.Views.{given_of, kind_of};

use crate::acts_of_core::core_act;
use crate::acts_of_jsp::jsp_act;
use crate::call::call_act;
use crate::contents::{Children, Content};
use crate::named::{attribute_is, text_of_attribute};
use crate::parts::Parts;
use jstl_tags::CoreName;
use page_acts::{Act, ActAttribute, ActBranch, ActParam};
use pg_text::Place;
use std::alloc::{AllocError, Global};
use unit_nodes::{Action, ActionKind, JspName};

/// What an action is to the one in which it stands: an act of its own, an attribute, its body, a
/// param or a branch.
#[derive(Clone, Copy)]
pub(crate) enum Role {
    Act,
    Attribute,
    Body,
    Param,
    When,
    Otherwise,
}

impl Role {
    // What an action of this kind is to the one in which it stands.
    fn of(kind: &ActionKind) -> Self
        ensures { result ≡ role_of (kind_of kind.now) }
    {
        match kind {
            ActionKind::Jsp(JspName::Attribute) => Role::Attribute,
            ActionKind::Jsp(JspName::Body) => Role::Body,
            ActionKind::Jsp(JspName::Param) => Role::Param,
            ActionKind::Core(CoreName::Param) => Role::Param,
            ActionKind::Core(CoreName::When) => Role::When,
            ActionKind::Core(CoreName::Otherwise) => Role::Otherwise,
            _ => Role::Act,
        }
    }
}

/// Adds an action, in which `inner` stands, to the children of the action around it.
pub(crate) fn add_action<'u>(
    alloc: Global,
    action: &'u Action,
    inner: Children<'u>,
    children: &mut Children<'u>,
) -> Result<(), AllocError>
    ensures { OnOk result (Adds children.old children.new (with_action (kind_of action.now.kind)
        (map given_of action.now.attributes) action.now.has_body action.now.source action.now.place
        (children_view inner.entry))) }
{
    match Role::of(&action.kind) {
        Role::Act => children.add_act(own_act(alloc, action, inner)?),
        Role::Attribute => {
            let parts = Parts::of(alloc, action, inner)?;
            add_given(alloc, action, parts, children)
        }
        Role::Body => {
            let parts = Parts::of(alloc, action, inner)?;
            add_held(alloc, action, parts, children)
        }
        Role::Param => {
            let parts = Parts::of(alloc, action, inner)?;
            add_param(alloc, &action.place, parts, children)
        }
        Role::When => {
            let parts = Parts::of(alloc, action, inner)?;
            add_when(alloc, &action.place, parts, children)
        }
        Role::Otherwise => {
            let parts = Parts::of(alloc, action, inner)?;
            add_otherwise(alloc, &action.place, parts, children)
        }
    }
}

// The act that an action is.
#[tactic(auto, using(crate::proofs::RoleLemmas::own_core, crate::proofs::RoleLemmas::own_jsp))]
fn own_act<'u>(
    alloc: Global,
    action: &'u Action,
    inner: Children<'u>,
) -> Result<Act<'u>, AllocError>
    ensures { IfOk result (λ act. act_of act ≡ action_node (kind_of action.now.kind)
        (map given_of action.now.attributes) action.now.has_body action.now.source (children_view inner.entry)
        action.now.place) }
{
    match &action.kind {
        ActionKind::Jsp(name) => {
            let parts = Parts::of(alloc, action, inner)?;
            jsp_act(alloc, *name, action, parts)
        }
        ActionKind::Core(name) => {
            let parts = Parts::of(alloc, action, inner)?;
            core_act(alloc, *name, action, parts)
        }
        ActionKind::Tag(path) => call_act(alloc, path, action, inner),
    }
}

// Adds what `jsp:attribute` gives.
fn add_given<'u>(
    alloc: Global,
    action: &'u Action,
    parts: Parts<'u>,
    children: &mut Children<'u>,
) -> Result<(), AllocError>
    ensures { OnOk result (Adds children.old children.new
        (with_nothing action.now.place (with_given (given_if true (map given_of action.now.attributes)
        (parts_view parts.entry).content.nodes action.now.place)))) }
{
    children.add_act(nothing(alloc, &action.place))?;
    children.add_given(given(alloc, action, parts.body)?)
}

// The attribute that `jsp:attribute` gives with this body.
#[tactic(auto, using(page_acts::proofs::Rows::rows))]
fn given<'u>(
    alloc: Global,
    action: &'u Action,
    body: Vec<Act<'u>>,
) -> Result<ActAttribute<'u>, AllocError>
    ensures { IfOk result (λ attribute. (others : Attributes) → attribute_before attribute others
        ≡ given_if true (map given_of action.now.attributes) (acts_of body.entry.items) action.now.place others) }
{
    let attributes = action.attributes.as_slice();
    Ok(ActAttribute::Given {
        trim: !attribute_is(alloc, attributes, "trim", "false")?,
        name: text_of_attribute(alloc, attributes, "name")?,
        body,
        place: &action.place,
    })
}

// Adds a `jsp:body`.
fn add_held<'u>(
    alloc: Global,
    action: &'u Action,
    parts: Parts<'u>,
    children: &mut Children<'u>,
) -> Result<(), AllocError>
    ensures { OnOk result (Adds children.old children.new
        (with_nothing action.now.place (with_held action.now.source (parts_view parts.entry).content))) }
{
    children.add_act(nothing(alloc, &action.place))?;
    let content = Content {
        acts: parts.body,
        params: parts.params,
        branches: parts.branches,
    };
    children.add_held(&action.source, content);
    Ok(())
}

// Adds a param.
fn add_param<'u>(
    alloc: Global,
    place: &'u Place,
    parts: Parts<'u>,
    children: &mut Children<'u>,
) -> Result<(), AllocError>
    ensures { OnOk result (Adds children.old children.new
        (with_nothing place.now (with_param (param_if true (parts_view parts.entry).attributes
        (parts_view parts.entry).content.nodes place.now)))) }
{
    children.add_act(nothing(alloc, place))?;
    children.add_param(ActParam {
        attributes: parts.attributes,
        body: parts.body,
        place,
    })
}

// Adds a branch with a test.
fn add_when<'u>(
    alloc: Global,
    place: &'u Place,
    parts: Parts<'u>,
    children: &mut Children<'u>,
) -> Result<(), AllocError>
    ensures { OnOk result (Adds children.old children.new
        (with_nothing place.now (with_branch (branch_if true false (parts_view parts.entry).attributes
        (parts_view parts.entry).content.nodes place.now)))) }
{
    children.add_act(nothing(alloc, place))?;
    children.add_branch(ActBranch::When {
        attributes: parts.attributes,
        body: parts.body,
        place,
    })
}

// Adds a branch without a test.
fn add_otherwise<'u>(
    alloc: Global,
    place: &'u Place,
    parts: Parts<'u>,
    children: &mut Children<'u>,
) -> Result<(), AllocError>
    ensures { OnOk result (Adds children.old children.new
        (with_nothing place.now (with_branch (branch_if false true (parts_view parts.entry).attributes
        (parts_view parts.entry).content.nodes place.now)))) }
{
    children.add_act(nothing(alloc, place))?;
    children.add_branch(ActBranch::Otherwise {
        body: parts.body,
        place,
    })
}

/// The empty group, which stands for an action that has no act of its own: an attribute, a body, a
/// param or a branch.
#[tactic(auto, using(page_acts::proofs::Rows::rows))]
pub(crate) fn nothing(alloc: Global, place: &Place) -> Act<'_>
    ensures { act_of result ≡ group no_nodes place.now }
{
    Act::Group {
        body: Vec::new(alloc),
        place,
    }
}
