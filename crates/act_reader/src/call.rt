// The call of a tag file.
#![tactic(auto, using(page_acts::proofs::Rows::rows))]

ghost use Rattle.std.specs.Prelude.{◌≡◌, map, option_map, if◌then◌else◌, IfOk};
ghost use Rattle.act_reader.specs.Contents.{children_view, held_view};
ghost use Rattle.page_acts.specs.Views.{act_of, acts_of, body_of};
ghost use Rattle.page_meaning.specs.Page.{call, no_body};
ghost use Rattle.unit_meaning.specs.Shape.{attributes_of, body_if, call_body, held_body_or};
ghost use Rattle.unit_nodes.specs.Views.{given_of, kind_of};

use crate::attributes::attributes_of;
use crate::contents::{Children, Held};
use page_acts::{Act, CallBody};
use pg_text::Path;
use std::alloc::{AllocError, Global};
use unit_nodes::Action;

/// The call of the tag file at a path.
pub(crate) fn call_act<'u>(
    alloc: Global,
    path: &'u Path,
    action: &'u Action,
    inner: Children<'u>,
) -> Result<Act<'u>, AllocError>
    ensures { IfOk result (λ act. act_of act
        ≡ call path.now (attributes_of (kind_of action.now.kind) (map given_of action.now.attributes)
        (children_view inner.entry))
        (call_body action.now.has_body action.now.source (children_view inner.entry)) action.now.place) }
{
    let is_given = inner.is_given();
    let Children { own, given, held } = inner;
    Ok(Act::Call {
        path,
        attributes: attributes_of(alloc, action, given)?,
        body: call_body(action, own.acts, is_given, held),
        place: &action.place,
    })
}

// The body of a call: what its `jsp:body` holds, where it has one; beside `jsp:attribute` none; or
// else all that stands in it, where it has a body.
fn call_body<'u>(
    action: &'u Action,
    acts: Vec<Act<'u>>,
    is_given: bool,
    held: Option<Held<'u>>,
) -> CallBody<'u>
    ensures { body_of result ≡ held_body_or (option_map held_view held.entry)
        (if is_given then no_body else body_if action.now.has_body action.now.source (acts_of acts.entry.items)) }
{
    match held {
        Some(Held { source, content }) => CallBody::Given {
            source,
            body: content.acts,
        },
        None if action.has_body && !is_given => CallBody::Given {
            source: &action.source,
            body: acts,
        },
        None => CallBody::Absent,
    }
}
