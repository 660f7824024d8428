ghost use Rattle.page_targets.specs.Targets.{RunsLookLast};

/// A run that ends by a forward has looked for its target last, and found a page or another file
/// there.
pub fn targets()
    ensures { RunsLookLast }
{}
