ghost use Rattle.load_gen.specs.Messages.{IsCounted};

/// How many messages of each kind there are for a number of pages. This call does nothing: its
/// contract is the law.
pub fn counted()
    ensures { IsCounted }
{}
