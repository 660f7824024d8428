ghost use Rattle.response_laws.specs.Laws.{ChainsUnfold, RunsGrowOn};

use page_meaning::{depth, parts};

/// A chain of forwards is its first page's run with the chains of its targets, and whatever comes
/// behind a run only adds to it.
pub fn responses()
    ensures unfold { ChainsUnfold }
    ensures grow { RunsGrowOn }
{
    depth();
    parts();
}
