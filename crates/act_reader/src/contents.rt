// The children of an action, and what stands in it.
ghost use Rattle.std.specs.Prelude.{◌≡◌, true, OnOk};
ghost use Rattle.act_reader.specs.Contents.{Adds, before, content_before, content_view};
ghost use Rattle.act_reader.specs.Contents.{with_branch, with_given, with_held, with_param};
ghost use Rattle.page_acts.specs.Views.{act_of, attribute_before, attributes_of, branch_before};
ghost use Rattle.page_acts.specs.Views.{param_before};
ghost use Rattle.unit_meaning.specs.Shape.{Children as ChildrenMeant, Content as ContentMeant};
ghost use Rattle.unit_meaning.specs.Shape.{has_attributes};
ghost use Rattle.unit_meaning.specs.Shape.{no_content, with_node};

use page_acts::{Act, ActAttribute, ActBranch, ActParam};
use pg_text::Text;
use std::alloc::{AllocError, Global};

/// The content of an action, in three lists: the acts of its body, its params, and its branches
/// (`c:when`, `c:otherwise`).
#[derive(Drop)]
pub(crate) struct Content<'u> {
    pub acts: Vec<Act<'u>>,
    pub params: Vec<ActParam<'u>>,
    pub branches: Vec<ActBranch<'u>>,
}

impl<'u> Content<'u> {
    /// Nothing.
    pub fn empty(alloc: Global) -> Self
        ensures view { content_view result ≡ no_content }
        ensures before { (rest : ContentMeant) → content_before result rest ≡ rest }
    {
        Content {
            acts: Vec::new(alloc),
            params: Vec::new(alloc),
            branches: Vec::new(alloc),
        }
    }
}

/// What stands in a `jsp:body`, with its source text.
#[derive(Drop)]
pub(crate) struct Held<'u> {
    pub source: &'u Text,
    pub content: Content<'u>,
}

/// The children of an action, or the nodes of a page, as far as they were read: all of them as they
/// stand there, the attributes that `jsp:attribute` gives, and the first `jsp:body`.
#[derive(Drop)]
pub(crate) struct Children<'u> {
    pub own: Content<'u>,
    pub given: Vec<ActAttribute<'u>>,
    pub held: Option<Held<'u>>,
}

impl<'u> Children<'u> {
    /// None.
    pub fn empty(alloc: Global) -> Self
        ensures { (rest : ChildrenMeant) → before result rest ≡ rest }
    {
        Children {
            own: Content::empty(alloc),
            given: Vec::new(alloc),
            held: None,
        }
    }

    /// Whether `jsp:attribute` gives an attribute.
    #[tactic(auto, using(crate::proofs::ContentLemmas::given_made))]
    pub fn is_given(&self) -> bool
        ensures { result ≡ has_attributes (attributes_of self.now.given.items) }
    {
        !self.given.is_empty()
    }

    /// Adds an action that is an act of its own.
    pub fn add_act(&mut self, act: Act<'u>) -> Result<(), AllocError>
        ensures { OnOk result (Adds self.old self.new (with_node (act_of act.entry))) }
    {
        self.own.acts.push(act)?;
        Ok(())
    }

    /// Adds an attribute that `jsp:attribute` gives.
    pub fn add_given(&mut self, attribute: ActAttribute<'u>) -> Result<(), AllocError>
        ensures { OnOk result (Adds self.old self.new (with_given (attribute_before attribute.entry))) }
    {
        self.given.push(attribute)?;
        Ok(())
    }

    /// Adds a `jsp:body`, unless one stands before it.
    pub fn add_held(&mut self, source: &'u Text, content: Content<'u>)
        ensures { Adds self.old self.new (with_held source.now (content_view content.entry)) }
    {
        if self.held.is_none() {
            self.held = Some(Held { source, content });
        }
    }

    /// Adds what `jsp:param` or `c:param` gives.
    pub fn add_param(&mut self, param: ActParam<'u>) -> Result<(), AllocError>
        ensures { OnOk result (Adds self.old self.new (with_param (param_before param.entry))) }
    {
        self.own.params.push(param)?;
        Ok(())
    }

    /// Adds a branch of a choice: `c:when` or `c:otherwise`.
    pub fn add_branch(&mut self, branch: ActBranch<'u>) -> Result<(), AllocError>
        ensures { OnOk result (Adds self.old self.new (with_branch (branch_before branch.entry))) }
    {
        self.own.branches.push(branch)?;
        Ok(())
    }
}
