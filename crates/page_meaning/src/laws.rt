ghost use Rattle.page_meaning.specs.Laws.{AnswersAreUnused, ChainsEnd, ForwardsLeaveFewer};
ghost use Rattle.page_meaning.specs.Laws.{HundredLevels, MoreAnswersGoOn, PiecesAreCommitted};
ghost use Rattle.page_meaning.specs.Laws.{RequestsGoOn, StepsAndPiecesGrow};

/// Every part of a page only adds steps and pieces, each step behind all that was committed then,
/// and starts no session behind a commit; and a missing answer has no other effect than that it is
/// waited for.
pub fn parts()
    ensures grow { StepsAndPiecesGrow }
    ensures more { MoreAnswersGoOn }
{}

/// A page goes 100 levels deep, forwards among them.
pub fn depth()
    ensures levels { HundredLevels }
    ensures forwards { ForwardsLeaveFewer }
    ensures chains { ChainsEnd }
{}

/// A request under more answers to its steps is answered as under fewer; a response's pieces are
/// those that its pages committed; one that needs no answer is answered alike under any answers.
pub fn requests()
    ensures more { RequestsGoOn }
    ensures pieces { PiecesAreCommitted }
    ensures unused { AnswersAreUnused }
{}
