ghost use Rattle.contexts.specs.Apart.{IsApart, IsSameInTwoWorlds};

use site_words::Compiled;

/// What is done to one context is nothing to another: a context's answers and state are those of a
/// site to which its operations alone are done.
pub fn apart<P: Compiled>()
    ensures { IsApart P.needs P.made }
{}

/// In two worlds whose operations for one context are the same, where memory didn't run out, its
/// replies and its state are the same.
pub fn two_worlds<P: Compiled>()
    ensures { IsSameInTwoWorlds P.needs P.made }
{}
