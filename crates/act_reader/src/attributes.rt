// The attributes of an action that are evaluated.
ghost use Rattle.std.specs.Prelude.{◌≡◌, [], ◌∷◌, map, IfOk, OnOk};
ghost use Rattle.std.specs.List.{list_any};
ghost use Rattle.std.specs.Str.{bytes_eq};
ghost use Rattle.act_reader.specs.Before.{attributes_before};
ghost use Rattle.page_acts.specs.Views.{attributes_of};
ghost use Rattle.page_meaning.specs.Page.{Attributes};
ghost use Rattle.unit_meaning.specs.Kinds.{statics_of};
ghost use Rattle.unit_meaning.specs.Named.{core_statics, jsp_statics, written_before};
ghost use Rattle.unit_nodes.specs.Views.{given_of, kind_of};

use page_acts::ActAttribute;
use std::alloc::{AllocError, Global};
use unit_nodes::{Action, ActionKind, JspName, UnitAttribute};

// Whether an attribute of a core tag is taken by the tag's own reader, and doesn't stand among the
// others: those that name something, and `target`, whose expression is read there.
fn is_core_static(name: &str) -> bool
    ensures { result ≡ list_any (bytes_eq name.now) core_statics }
{
    name == "var" || name == "varStatus" || name == "scope" || name == "target"
}

// Whether an attribute of a standard action says what is named, and isn't evaluated as the others
// are.
fn is_jsp_static(name: &str) -> bool
    ensures { result ≡ list_any (bytes_eq name.now) jsp_statics }
{
    name == "name"
        || name == "flush"
        || name == "property"
        || name == "param"
        || name == "fragment"
        || name == "var"
        || name == "scope"
}

// Whether an attribute of an action isn't evaluated.
fn is_static(kind: &ActionKind, name: &str) -> bool
    ensures { result ≡ list_any (bytes_eq name.now) (statics_of (kind_of kind.now)) }
{
    match kind {
        ActionKind::Jsp(JspName::Param) => false,
        ActionKind::Jsp(_) => is_jsp_static(name),
        ActionKind::Core(_) => is_core_static(name),
        ActionKind::Tag(_) => false,
    }
}

/// The attributes of an action in the order in which they are evaluated: those of its start tag,
/// and then those that are given in its body.
#[tactic(auto, using(crate::proofs::BeforeLemmas::attributes_joined))]
pub(crate) fn attributes_of<'u>(
    alloc: Global,
    action: &'u Action,
    mut given: Vec<ActAttribute<'u>>,
) -> Result<Vec<ActAttribute<'u>>, AllocError>
    ensures { IfOk result (λ all. attributes_of all.items
        ≡ written_before (statics_of (kind_of action.now.kind)) (map given_of action.now.attributes)
        (attributes_of given.entry.items)) }
{
    let mut all = written(alloc, &action.kind, action.attributes.as_slice())?;
    all.append(&mut given)?;
    Ok(all)
}

// The attributes of a start tag that are evaluated.
fn written<'u>(
    alloc: Global,
    kind: &ActionKind,
    attributes: &'u [UnitAttribute],
) -> Result<Vec<ActAttribute<'u>>, AllocError>
    ensures { IfOk result (λ all. (others : Attributes) → attributes_before all.items others
        ≡ written_before (statics_of (kind_of kind.now)) (map given_of attributes.now) others) }
{
    let mut all = Vec::new(alloc);
    for attribute in attributes {
        add_written(kind, attribute, &mut all)?;
    }
    Ok(all)
}

// Adds an attribute of a start tag, if it is evaluated.
#[tactic(auto, using(crate::proofs::BeforeLemmas::attributes_push))]
fn add_written<'u>(
    kind: &ActionKind,
    attribute: &'u UnitAttribute,
    all: &mut Vec<ActAttribute<'u>>,
) -> Result<(), AllocError>
    ensures { OnOk result ((others : Attributes) → attributes_before all.new.items others
        ≡ attributes_before all.old.items (written_before (statics_of (kind_of kind.now))
        (given_of attribute.now ∷ []) others)) }
{
    if is_static(kind, attribute.name.as_str()) {
        return Ok(());
    }
    all.push(ActAttribute::Written {
        name: &attribute.name,
        parts: attribute.parts.as_slice(),
        place: &attribute.place,
    })?;
    Ok(())
}
