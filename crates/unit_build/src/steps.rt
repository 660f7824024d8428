ghost use Rattle.std.specs.Prelude.{◌≡◌, ◌++◌, ◌∷◌, [], map, IfOk, OnOk};
ghost use Rattle.jstl_tags.specs.Elements.{opened_of};
ghost use Rattle.unit_source.specs.InPlace.{done, element as element_placed, flat};
ghost use Rattle.unit_source.specs.InPlace.{included as include_placed};
ghost use Rattle.unit_source.specs.Placed.{in_place, node_in_place};
ghost use Rattle.unit_words.specs.Elements.{outermost, within};
ghost use Rattle.unit_words.specs.Kinds.{kind_of};
ghost use Rattle.unit_words.specs.Walk.{behind, behind_all};
ghost use Rattle.unit_judges.specs.Made.{here_made};
ghost use Rattle.unit_build.specs.MadeSteps.{step_made};
ghost use Rattle.unit_build.specs.ReadSteps.{break_step, end_step, include_step, leaf_step};
ghost use Rattle.unit_build.specs.ReadSteps.{start_step, steps_of};

use page_pieces::Leaf;
use pg_text::{PageFault, Place};
use std::alloc::{AllocError, Global};
use unit_judges::{Here, Kind, Registered, kind_of};
use unit_source::{Entry, PlacedElement, PlacedInclude, PlacedNode, WrittenDirective};

/// A step of the walk through a page or a tag file.
#[derive(Drop)]
pub(crate) enum Step<'r> {
    Leaf {
        here: Here<'r>,
        leaf: &'r Leaf,
        place: &'r Place,
    },
    /// The reading of a file breaks off.
    Break(&'r PageFault),
    /// The beginning of an element. The steps of its body follow.
    Start {
        here: Here<'r>,
        kind: Kind,
        element: &'r PlacedElement,
    },
    /// An include directive. The steps of its file follow, up to `End`.
    Include {
        directive: &'r WrittenDirective,
        entry: Entry,
    },
    End,
}

/// The steps of nodes in place, in reading order. `directives` are those of both readings of the
/// page or tag file.
pub(crate) fn steps_of<'r>(
    alloc: Global,
    directives: &Registered,
    nodes: &'r [PlacedNode],
) -> Result<Vec<Step<'r>>, AllocError>
    ensures { IfOk result (λ steps. map step_made steps.items ≡ steps_of directives.now outermost
        (in_place nodes.now)) }
{
    let mut steps = Vec::new(alloc);
    let mut here = Here::outermost();
    push_steps(alloc, directives, &mut here, nodes, &mut steps)?;
    Ok(steps)
}

// Adds a step. None of the functions that add one step is inlined: a step isn't on the stack while
// the steps of a body or of a file are added.
#[inline(never)]
fn add<'r>(steps: &mut Vec<Step<'r>>, step: Step<'r>) -> Result<(), AllocError>
    ensures { OnOk result (map step_made steps.new.items ≡ map step_made steps.old.items
        ++ step_made step.entry ∷ []) }
{
    steps.push(step)?;
    Ok(())
}

// Adds a leaf.
#[inline(never)]
fn add_leaf<'r>(
    here: &Here<'r>,
    leaf: &'r Leaf,
    place: &'r Place,
    steps: &mut Vec<Step<'r>>,
) -> Result<(), AllocError>
    ensures { OnOk result (map step_made steps.new.items ≡ map step_made steps.old.items
        ++ leaf_step (here_made here.now) leaf.now place.now ∷ []) }
{
    let here = *here;
    add(steps, Step::Leaf { here, leaf, place })
}

// Adds the break of a file.
#[inline(never)]
fn add_break<'r>(fault: &'r PageFault, steps: &mut Vec<Step<'r>>) -> Result<(), AllocError>
    ensures { OnOk result (map step_made steps.new.items ≡ map step_made steps.old.items
        ++ break_step fault.now ∷ []) }
{
    add(steps, Step::Break(fault))
}

// Adds an include directive.
#[inline(never)]
fn add_include<'r>(include: &'r PlacedInclude, steps: &mut Vec<Step<'r>>) -> Result<(), AllocError>
    ensures { OnOk result (map step_made steps.new.items ≡ map step_made steps.old.items
        ++ include_step include.now.directive include.now.entry ∷ []) }
{
    add(
        steps,
        Step::Include {
            directive: &include.directive,
            entry: include.entry,
        },
    )
}

// Adds the end of an included file.
#[inline(never)]
fn add_end(steps: &mut Vec<Step>) -> Result<(), AllocError>
    ensures { OnOk result (map step_made steps.new.items ≡ map step_made steps.old.items ++ end_step ∷ []) }
{
    add(steps, Step::End)
}

// Adds the beginning of an element, and answers what stands around in its body. From now on `here`
// is what stands around behind it.
#[inline(never)]
fn add_start<'r>(
    alloc: Global,
    directives: &Registered,
    here: &mut Here<'r>,
    element: &'r PlacedElement,
    steps: &mut Vec<Step<'r>>,
) -> Result<Here<'r>, AllocError>
    ensures within { IfOk result (λ inner. here_made inner
        ≡ within (kind_of directives.now (opened_of element.now.head).tag) (opened_of element.now.head).tag
        (here_made here.old)) }
    ensures behind { OnOk result (here_made here.new
        ≡ behind (kind_of directives.now (opened_of element.now.head).tag) (here_made here.old)) }
    ensures steps { OnOk result (map step_made steps.new.items ≡ map step_made steps.old.items
        ++ start_step (here_made here.old) (kind_of directives.now (opened_of element.now.head).tag)
        (opened_of element.now.head) (flat (in_place element.now.body.items)) ∷ []) }
{
    let outer = *here;
    let kind = kind_of(alloc, directives, &element.head)?;
    let within = outer.within(&kind, &element.head);
    *here = outer.behind(&kind);
    add(
        steps,
        Step::Start {
            here: outer,
            kind,
            element,
        },
    )?;
    Ok(within)
}

// Adds the steps of nodes in place. `here` is what stands around them, and then what stands around
// behind them.
#[cycle(steps)]
fn push_steps<'r>(
    alloc: Global,
    directives: &Registered,
    here: &mut Here<'r>,
    nodes: &'r [PlacedNode],
    steps: &mut Vec<Step<'r>>,
) -> Result<(), AllocError>
    ensures here { OnOk result (here_made here.new
        ≡ behind_all directives.now (in_place nodes.now) (here_made here.old)) }
    ensures steps { OnOk result (map step_made steps.new.items ≡ map step_made steps.old.items
        ++ steps_of directives.now (here_made here.old) (in_place nodes.now)) }
{
    for node in nodes {
        push_node(alloc, directives, here, node, steps)?;
    }
    Ok(())
}

// Adds the steps of a node. Behind it the same stands around, but that a choice around has its
// `c:otherwise` now, where the node is one or includes one.
#[cycle(steps)]
fn push_node<'r>(
    alloc: Global,
    directives: &Registered,
    here: &mut Here<'r>,
    node: &'r PlacedNode,
    steps: &mut Vec<Step<'r>>,
) -> Result<(), AllocError>
    ensures here { OnOk result (here_made here.new
        ≡ behind_all directives.now (node_in_place node.now) (here_made here.old)) }
    ensures steps { OnOk result (map step_made steps.new.items ≡ map step_made steps.old.items
        ++ steps_of directives.now (here_made here.old) (node_in_place node.now)) }
{
    match node {
        PlacedNode::Leaf(leaf, place) => add_leaf(here, leaf, place, steps),
        PlacedNode::Broken(fault) => add_break(fault, steps),
        PlacedNode::Element(element) => push_element(alloc, directives, here, element, steps),
        PlacedNode::Included(include) => push_include(alloc, directives, here, include, steps),
    }
}

// Adds the beginning of an element, and the steps of its body.
#[cycle(steps)]
fn push_element<'r>(
    alloc: Global,
    directives: &Registered,
    here: &mut Here<'r>,
    element: &'r PlacedElement,
    steps: &mut Vec<Step<'r>>,
) -> Result<(), AllocError>
    ensures here { OnOk result (here_made here.new
        ≡ behind_all directives.now (element_placed (opened_of element.now.head)
        (in_place element.now.body.items) done) (here_made here.old)) }
    ensures steps { OnOk result (map step_made steps.new.items
        ≡ map step_made steps.old.items ++ steps_of directives.now (here_made here.old)
        (element_placed (opened_of element.now.head) (in_place element.now.body.items) done)) }
{
    let mut within = add_start(alloc, directives, here, element, steps)?;
    push_steps(alloc, directives, &mut within, &element.body, steps)
}

// Adds an include directive, and the steps of its file.
#[cycle(steps)]
fn push_include<'r>(
    alloc: Global,
    directives: &Registered,
    here: &mut Here<'r>,
    include: &'r PlacedInclude,
    steps: &mut Vec<Step<'r>>,
) -> Result<(), AllocError>
    ensures here { OnOk result (here_made here.new
        ≡ behind_all directives.now (in_place include.now.body.items) (here_made here.old)) }
    ensures steps { OnOk result (map step_made steps.new.items
        ≡ map step_made steps.old.items ++ steps_of directives.now (here_made here.old)
        (include_placed include.now.directive include.now.entry (in_place include.now.body.items) done)) }
{
    add_include(include, steps)?;
    push_steps(alloc, directives, here, &include.body, steps)?;
    add_end(steps)
}
