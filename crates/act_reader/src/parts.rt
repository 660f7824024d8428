// What the act of an action is made of.
ghost use Rattle.std.specs.Prelude.{◌≡◌, map, option_map, if◌then◌else◌, IfOk};
ghost use Rattle.act_reader.specs.Contents.{children_view, content_view, held_view};
ghost use Rattle.act_reader.specs.Parts.{parts_in, parts_view};
ghost use Rattle.page_acts.specs.Views.{act_of, addressing_node, enclosing_node};
ghost use Rattle.unit_meaning.specs.Shape.{held_or, no_content};
ghost use Rattle.unit_nodes.specs.Views.{given_of, kind_of};

use crate::attributes::attributes_of;
use crate::contents::{Children, Content, Held};
use page_acts::{Act, ActAttribute, ActBranch, ActParam, Addressing, Enclosing};
use pg_text::Place;
use std::alloc::{AllocError, Global};
use unit_nodes::Action;

/// All attributes of an action, the acts of its body, its params and its branches.
#[derive(Drop)]
pub(crate) struct Parts<'u> {
    pub attributes: Vec<ActAttribute<'u>>,
    pub body: Vec<Act<'u>>,
    pub params: Vec<ActParam<'u>>,
    pub branches: Vec<ActBranch<'u>>,
}

impl<'u> Parts<'u> {
    /// The parts of an action with these children.
    pub fn of(alloc: Global, action: &'u Action, children: Children<'u>) -> Result<Self, AllocError>
        ensures { IfOk result (λ parts. parts_view parts ≡ parts_in (kind_of action.now.kind)
            (map given_of action.now.attributes) (children_view children.entry)) }
    {
        let is_given = children.is_given();
        let Children { own, given, held } = children;
        let Content {
            acts,
            params,
            branches,
        } = content_in(alloc, own, is_given, held);
        Ok(Parts {
            attributes: attributes_of(alloc, action, given)?,
            body: acts,
            params,
            branches,
        })
    }

    /// The act of an action around a body that has these parts.
    #[tactic(auto, using(page_acts::proofs::Rows::rows))]
    pub fn enclosed(self, action: Enclosing, place: &'u Place) -> Act<'u>
        ensures { act_of result ≡ enclosing_node action (parts_view self.entry).attributes
            (parts_view self.entry).content.nodes place.now }
    {
        Act::Enclosed {
            action,
            attributes: self.attributes,
            body: self.body,
            place,
        }
    }

    /// The act of an action on an address that has these parts.
    #[tactic(auto, using(page_acts::proofs::Rows::rows))]
    pub fn addressed(self, action: Addressing, place: &'u Place) -> Act<'u>
        ensures { act_of result ≡ addressing_node action (parts_view self.entry).attributes
            (parts_view self.entry).content.params place.now }
    {
        Act::Addressed {
            action,
            attributes: self.attributes,
            params: self.params,
            place,
        }
    }
}

// What stands in an action: what its `jsp:body` holds, where it has one; beside `jsp:attribute`
// nothing else; or else its children.
fn content_in<'u>(
    alloc: Global,
    own: Content<'u>,
    is_given: bool,
    held: Option<Held<'u>>,
) -> Content<'u>
    ensures { content_view result ≡ held_or (option_map held_view held.entry)
        (if is_given then no_content else content_view own.entry) }
{
    match held {
        Some(held) => held.content,
        None if is_given => Content::empty(alloc),
        None => own,
    }
}
