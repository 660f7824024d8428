ghost use Rattle.context_words.specs.Grown.{HasOwnHistories};
ghost use Rattle.context_words.specs.Shared.{AreOwnWalks, HasOwnShares};

/// Each context's answers and entries are those of a walk over its own requests alone, with the
/// moments which they took: what each context has is walked so, and such a walk is one of a
/// connection to its site.
pub fn shares<H>()
    ensures shares { HasOwnShares H }
    ensures walks { AreOwnWalks }
{}

/// What the pass of each context has seen is one legal history, and no request is under way there.
pub fn histories<H>()
    ensures { HasOwnHistories H }
{}
