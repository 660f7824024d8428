// Calls of tag files, and what they hand down.
ghost use Rattle.std.specs.Prelude.{◌≡◌, map, IfOk, OnOk, option_map};
ghost use Rattle.page_acts.specs.Views.{acts_of, attribute_before, attributes_of, body_of};
ghost use Rattle.page_code.specs.Shapes.{empty_shape};
ghost use Rattle.code_forms.specs.Codes.{form_code, handed_code};
ghost use Rattle.code_lowering.specs.Lowering.{fragments_form, handed_form, node_form, nodes_form};
ghost use Rattle.page_meaning.specs.Page.{call, no_attributes};
ghost use Rattle.page_meaning.specs.Tags.{tag_at};
ghost use Rattle.unit_meaning.specs.Shape.{page_of, tag_of};
ghost use Rattle.tag_decl.specs.Declare.{declared};
ghost use Rattle.unit_nodes.specs.Views.{page_view, tag_view};
ghost use Rattle.code_nodes.specs.Calls.{body_handed, is_fragment, with_fragments};

use crate::attributes::values;
use crate::names::evaluated_names;
use crate::position::Position;
use crate::tree::nodes;
use code_actions::{Evaluations, call_tag};
use code_forms::{Handed, ended, joined};
use page_acts::{Act, ActAttribute, CallBody};
use page_code::{Code, Shape};
use pg_text::{Path, Place, Text};
use std::alloc::{AllocError, Global};
use tag_decl::{BodyKind, TagDecl, declared};
use unit_nodes::{Page, TagFile};

/// The code of the call of the tag file at a path; none where the unit has no such file, as no unit
/// does that was read.
#[cycle(nodes)]
pub(crate) fn call(
    alloc: Global,
    page: &Page,
    at: Position,
    path: &Path,
    attributes: &[ActAttribute],
    body: &CallBody,
) -> Result<Code, AllocError>
    ensures { IfOk result (λ code. code
        ≡ form_code at.entry.ground.now (node_form (page_of (page_view page.now))
        (call path.now (attributes_of attributes.now) (body_of body.now) at.entry.place.now))) }
{
    let Some(tag) = tag_at(&page.tags, path) else {
        return Ok(Code::new(alloc));
    };
    let evaluations = Evaluations::Declared(&tag.decl.attributes);
    let code = values(alloc, page, at.ground, &evaluations, attributes)?;
    let down = handed(alloc, page, at.place, tag.decl.body, body)?;
    let down = with_fragments(alloc, page, &tag.decl, attributes, down)?;
    let names = evaluated_names(alloc, &evaluations, attributes)?;
    joined(
        code,
        call_tag(alloc, at.ground, at.place, path, names, down)?,
    )
}

// The tag file at a path.
fn tag_at<'u>(tags: &'u [TagFile], path: &Path) -> Option<&'u TagFile>
    ensures { option_map (λ tag. tag_of (tag_view tag.now)) result
        ≡ tag_at path.now (map tag_of (map tag_view tags.now)) }
{
    for tag in tags {
        if path.as_bytes() == tag.path.as_bytes() {
            return Some(tag);
        }
    }
    None
}

// The body that a call hands down to a tag file that takes such a body.
#[cycle(nodes)]
#[tactic(auto, using(page_acts::proofs::Rows::rows))]
fn handed(
    alloc: Global,
    page: &Page,
    place: &Place,
    kind: BodyKind,
    body: &CallBody,
) -> Result<Handed, AllocError>
    ensures { IfOk result (λ down. down ≡ body_handed (handed_form (page_of (page_view page.now))
        (body_of body.now) place.now kind)) }
{
    match body {
        CallBody::Absent => Ok(Handed::nothing(alloc)),
        CallBody::Given { source, body } => match kind {
            BodyKind::TagDependent => Ok(Handed::source(alloc, source.copy()?)),
            BodyKind::Scriptless | BodyKind::Empty => {
                Ok(Handed::body(alloc, whole(alloc, page, place, body)?))
            }
        },
    }
}

// The same with the fragments among the attributes.
#[cycle(nodes)]
fn with_fragments(
    alloc: Global,
    page: &Page,
    decl: &TagDecl,
    attributes: &[ActAttribute],
    down: Handed,
) -> Result<Handed, AllocError>
    ensures { IfOk result (λ all. all ≡ with_fragments down (fragments_form (page_of (page_view page.now))
        (attributes_of attributes.now) decl.now)) }
{
    let mut down = down;
    for attribute in attributes {
        add_fragment(alloc, page, decl, attribute, &mut down)?;
    }
    Ok(down)
}

// Adds an attribute where it is declared as a fragment.
#[cycle(nodes)]
#[tactic(auto, using(page_acts::proofs::Rows::rows))]
fn add_fragment(
    alloc: Global,
    page: &Page,
    decl: &TagDecl,
    attribute: &ActAttribute,
    down: &mut Handed,
) -> Result<(), AllocError>
    ensures { OnOk result (down.new ≡ with_fragments down.old (fragments_form (page_of (page_view page.now))
        (attribute_before attribute.now no_attributes) decl.now)) }
{
    match attribute {
        ActAttribute::Written { .. } => Ok(()),
        ActAttribute::Given {
            name,
            body,
            place,
            ..
        } => {
            if is_fragment(decl, name) {
                let code = whole(alloc, page, place, body)?;
                down.add_fragment(name.copy()?, code)
            } else {
                Ok(())
            }
        }
    }
}

// Whether the attribute of this name is declared as a fragment.
fn is_fragment(decl: &TagDecl, name: &Text) -> bool
    ensures { result ≡ is_fragment (declared name.now decl.now.attributes) }
{
    match declared(&decl.attributes, name.as_str()) {
        Some(attribute) => attribute.fragment,
        None => false,
    }
}

// The code of a part that is handed down, with its end. Nothing stands open where it begins,
// whatever does where the call is.
#[cycle(nodes)]
fn whole(alloc: Global, page: &Page, place: &Place, body: &[Act]) -> Result<Code, AllocError>
    ensures { IfOk result (λ code. code ≡ handed_code place.now
        (form_code empty_shape (nodes_form (page_of (page_view page.now)) (acts_of body.now)))) }
{
    let code = nodes(alloc, page, &Shape::empty(alloc)?, body)?;
    ended(alloc, place, code)
}
