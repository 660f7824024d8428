ghost use Rattle.std.specs.Prelude.{◌≡◌, ◌≤◌, ◌<◌, ◌+◌, ◌^◌, None, Some, true, IfOk};
ghost use Rattle.edges.specs.Faults.{Rose};
ghost use Rattle.compiled_pages.specs.Pages.{needs_at};
ghost use Rattle.http_out.specs.Methods.{takes_method};
ghost use Rattle.pg_text.specs.declared.failure.Failure.TheVariants.{Fault as IsFault};
ghost use Rattle.preview_words.specs.Laws.{IsRunnable};
ghost use Rattle.preview_words.specs.Own.{drafted_tree, own_opening, picture_in};
ghost use Rattle.preview_words.specs.Shown.{ServedRun, ServedShown, ServedTree};
ghost use Rattle.site_words.specs.Opening.{is_sound};
ghost use Rattle.source_tree.specs.Limits.{tree_fault};
ghost use Rattle.source_tree.specs.declared.fault.TreeFault.{TreeFault as Reason};

use crate::incoming::Incoming;
use crate::own::{NoTime, own_site};
use crate::telling::{tell, tell_fault};
use conversation::Outcome;
use edges::{Ledger, Sink, Steps};
use editor::Draft;
use http_out::Status;
use pages_talk::respond;
use pg_text::Failure;
use site_words::Snapped;
use source_tree::{Tree, TreeFault};
use std::alloc::Global;

/// The last version of a live site behind which a preview's own site can have another.
const LAST_VERSION: u64 = (1 << 63) - 2;

/// Answers a request for a page by a picture of the site and a draft. Where the request is run,
/// that is on a site of its own, whose session it names.
pub(crate) fn show<K: Sink, L: Ledger>(
    alloc: Global,
    draft: &Draft,
    snapped: Snapped,
    incoming: &mut Incoming,
    sink: &mut K,
    steps: &mut Steps<L>,
) -> Outcome
    requires runnable { IsRunnable draft.now (picture_in snapped) }
    requires taken { takes_method incoming.old.request.method ≡ true }
    ensures served { ServedShown needs_at draft.now (picture_in snapped) incoming.old.close incoming.old.request
        steps.old steps.new (K.faults sink.old) (K.faults sink.new) (K.taken sink.old) (K.taken sink.new)
        result }
    ensures later { K.faults sink.old ≤ K.faults sink.new }
    ensures failed { result ≡ Outcome.WriteFault → Rose (K.faults sink.old) (K.faults sink.new) }
{
    match drafted(draft, &snapped) {
        Ok(tree) => show_tree(alloc, snapped, tree, incoming, sink, steps),
        Err(Failure::Fault(reason)) => tell_fault(alloc, incoming, reason, sink),
        Err(Failure::NoMemory) => Outcome::NoMemory,
    }
}

// The tree of a picture with a draft; where no version is behind the picture's, its stamps mean
// nothing.
fn drafted(draft: &Draft, snapped: &Snapped) -> Result<Tree, Failure<TreeFault>>
    ensures files { IfOk result (λ tree. snapped.now.version + 1 < 2 ^ 63
        → tree ≡ drafted_tree draft.now (picture_in snapped.now)) }
    ensures limits { IfOk result (λ tree.
        tree_fault (drafted_tree draft.now (picture_in snapped.now)) ≡ None) }
    ensures fault { (reason : Reason) → result ≡ Err (IsFault reason)
        → tree_fault (drafted_tree draft.now (picture_in snapped.now)) ≡ Some reason }
{
    let stamp = snapped.version.saturating_add(1);
    snapped.tree.apply(draft.edits(), stamp)
}

// Answers a request for a page by a tree that keeps its limits, where a version is behind the
// picture's.
fn show_tree<K: Sink, L: Ledger>(
    alloc: Global,
    snapped: Snapped,
    tree: Tree,
    incoming: &mut Incoming,
    sink: &mut K,
    steps: &mut Steps<L>,
) -> Outcome
    requires sound { snapped.version + 1 < 2 ^ 63
        → is_sound (own_opening tree (picture_in snapped)) ≡ true }
    requires taken { takes_method incoming.old.request.method ≡ true }
    ensures served { ServedTree needs_at tree (picture_in snapped) incoming.old.close incoming.old.request
        steps.old steps.new (K.faults sink.old) (K.faults sink.new) (K.taken sink.old) (K.taken sink.new)
        result }
    ensures later { K.faults sink.old ≤ K.faults sink.new }
    ensures failed { result ≡ Outcome.WriteFault → Rose (K.faults sink.old) (K.faults sink.new) }
{
    if snapped.version > LAST_VERSION {
        let line = b"TreeTooLarge Version";
        return tell(alloc, incoming, Status::ContentTooLarge, line, sink);
    }
    run(alloc, snapped, tree, incoming, sink, steps)
}

// Runs a request on a site of its own, whose session it names.
fn run<K: Sink, L: Ledger>(
    alloc: Global,
    snapped: Snapped,
    tree: Tree,
    incoming: &mut Incoming,
    sink: &mut K,
    steps: &mut Steps<L>,
) -> Outcome
    requires version { snapped.version + 1 < 2 ^ 63 }
    requires sound { is_sound (own_opening tree (picture_in snapped)) ≡ true }
    requires taken { takes_method incoming.old.request.method ≡ true }
    ensures served { ServedRun needs_at (own_opening tree (picture_in snapped)) snapped.session
        incoming.old.close incoming.old.request steps.old steps.new (K.faults sink.old) (K.faults sink.new)
        (K.taken sink.old) (K.taken sink.new) result }
    ensures later { K.faults sink.old ≤ K.faults sink.new }
    ensures failed { result ≡ Outcome.WriteFault → Rose (K.faults sink.old) (K.faults sink.new) }
{
    let Ok((mut port, cookie)) = own_site(alloc, snapped, tree) else {
        return Outcome::NoMemory;
    };
    incoming.request.cookie = cookie;
    respond(
        alloc,
        &mut port,
        &incoming.request,
        incoming.close,
        sink,
        &mut NoTime,
        steps,
    )
}
