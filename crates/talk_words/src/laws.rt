//! The laws of connections, each a clause of a function without a body of its own.
ghost use Rattle.talk_words.specs.Grown.{HasOneHistory};
ghost use Rattle.talk_words.specs.Noted.{IsToldAgain};
ghost use Rattle.talk_words.specs.Refusals.{HasExactRefusals};
ghost use Rattle.talk_words.specs.Uses.{EachOnce};
ghost use Rattle.talk_words.specs.Versions.{AreNeverOlder};
ghost use Rattle.talk_words.specs.Work.{HasExactWork};

/// What a connection's pass has seen at its end is one legal history that goes on from what it had
/// seen, and no request is under way.
pub fn one_history()
    ensures { HasOneHistory }
{}

/// Each exchange uses its own entries, once and in order, and no entry of the pass is left over.
pub fn each_once()
    ensures { EachOnce }
{}

/// No request has an older version than one before it, whoever began that, nor than what its pass
/// had seen.
pub fn versions()
    ensures { AreNeverOlder }
{}

/// A page is refused exactly where its unit in the tree of the request's version has a fault.
pub fn exact_refusals()
    ensures { HasExactRefusals }
{}

/// A connection reads exactly the files on which the pages depend that it missed, each page in its
/// request's tree.
pub fn exact_work()
    ensures { HasExactWork }
{}

/// A connection whose clock noted its moments is the same connection over a clock that tells them.
pub fn told_again()
    ensures { IsToldAgain }
{}
