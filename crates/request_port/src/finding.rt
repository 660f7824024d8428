// Pages found for a request: what is kept of them, or what is made anew and offered.
ghost use Rattle.std.specs.Prelude.{◌≡◌, ◌+◌, ◌≤◌, IfOk};
ghost use Rattle.std.specs.Arc.{arc_value};
ghost use Rattle.page_answers.specs.Turns.{page_bytes};
ghost use Rattle.compiled_pages.specs.Made.{IsMade};
ghost use Rattle.compiled_pages.specs.Pages.{needs_at};
ghost use Rattle.pass_course.specs.Under.{Under};
ghost use Rattle.request_port.specs.Finding.{IsFound, Offers};
ghost use Rattle.site_words.specs.Answers.{IsSamePort};
ghost use Rattle.site_words.specs.Running.{IsPageFile};
ghost use Rattle.site_words.specs.Weights.{end_weight, op_weight};
ghost use Rattle.site_words.specs.declared.words.Op.TheVariants as op;
ghost use Rattle.site_words.specs.declared.words.Run.{Run};
ghost use Rattle.source_tree.specs.Edits.{file_at};
ghost use Rattle.source_tree.specs.Limits.{IsWithinLimits};

use compiled_pages::Made;
use edges::{Ledger, Steps};
use pg_text::Path;
use site_words::Port;
use source_tree::Tree;
use std::alloc::{AllocError, Global};
use std::sync::Arc;
use translator::translate;
use unit_build::build;

/// The page at a path, where its file stands in the request's tree: what is kept of it, or else
/// what is made of it, which is offered. `steps` counts the bytes that are read to make it.
pub(crate) fn find<Q: Port<Made>, L: Ledger>(
    alloc: Global,
    port: &mut Q,
    steps: &mut Steps<L>,
    tree: &Tree,
    request: u64,
    path: &Path,
) -> Result<Arc<Made>, AllocError>
    requires under { (run : Run) × Under (Q.opening port.old) (Q.pass port.old) (Q.seen port.old)
        request tree.now run × (op_weight (op.Fetch request path.now) + op_weight (op.Offer request path.now)
        + end_weight ≤ run.left) }
    requires file { IsPageFile path.now (file_at path.now tree.now) }
    ensures same { IsSamePort (Q.pass port.old) (Q.pass port.new) (Q.opening port.old) (Q.opening port.new)
        (Q.home port.old) (Q.home port.new) }
    ensures made { IfOk result (λ made. IsMade (arc_value made) tree.now path.now) }
    ensures found { IsFound needs_at (Q.opening port.old) (Q.pass port.old) (Q.seen port.old) (Q.seen port.new)
        steps.old steps.new request tree.now path.now result }
{
    match port.fetch(request, path) {
        Err(AllocError) => Err(AllocError),
        Ok(Some(made)) => Ok(made),
        Ok(None) => make(alloc, port, steps, tree, request, path),
    }
}

// Makes the page at a path, and offers it.
fn make<Q: Port<Made>, L: Ledger>(
    alloc: Global,
    port: &mut Q,
    steps: &mut Steps<L>,
    tree: &Tree,
    request: u64,
    path: &Path,
) -> Result<Arc<Made>, AllocError>
    requires under { (run : Run) × Under (Q.opening port.old) (Q.pass port.old) (Q.seen port.old)
        request tree.now run × (op_weight (op.Offer request path.now) + end_weight ≤ run.left) }
    requires file { IsPageFile path.now (file_at path.now tree.now) }
    ensures same { IsSamePort (Q.pass port.old) (Q.pass port.new) (Q.opening port.old) (Q.opening port.new)
        (Q.home port.old) (Q.home port.new) }
    ensures made { IfOk result (λ made. IsMade (arc_value made) tree.now path.now) }
    ensures offers { Offers needs_at (Q.opening port.old) (Q.pass port.old) (Q.seen port.old) (Q.seen port.new)
        steps.old steps.new request tree.now path.now result }
{
    port.law();
    let Ok(made) = translated(alloc, steps, tree, path) else {
        return Err(AllocError);
    };
    let Ok(kept) = Arc::try_clone(&made) else {
        return Err(AllocError);
    };
    match port.offer(request, path, kept) {
        Ok(_) => Ok(made),
        Err(AllocError) => Err(AllocError),
    }
}

// What is made of the page at a path.
fn translated<L: Ledger>(
    alloc: Global,
    steps: &mut Steps<L>,
    tree: &Tree,
    path: &Path,
) -> Result<Arc<Made>, AllocError>
    requires limits { IsWithinLimits tree.now }
    requires file { IsPageFile path.now (file_at path.now tree.now) }
    ensures made { IfOk result (λ made. IsMade (arc_value made) tree.now path.now) }
    ensures read { IfOk result (λ made. steps.new ≡ steps.old + page_bytes tree.now path.now) }
    ensures bound { steps.new ≤ steps.old + page_bytes tree.now path.now }
{
    let unit = build(alloc, tree, path, steps)?;
    Ok(Arc::new(alloc, translate(alloc, &unit)?)?)
}
