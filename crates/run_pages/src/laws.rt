ghost use Rattle.run_pages.specs.Laws.{PagesAreServed};

use code_lowering::programs;

/// Whatever the tree, the request and what it keeps: what a port may tell of pages that were made
/// from the tree stands at their paths, and the shapes of all programs fit.
pub fn served()
    ensures { PagesAreServed }
{
    programs();
}
