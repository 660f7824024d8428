ghost use Rattle.page_table.specs.Agreement.{RowsAgree};
ghost use Rattle.page_table.specs.Finds.{EachFinds};
ghost use Rattle.page_table.specs.Laws.{EachRunEnds, NeverStuck, OneEnd, RunsGrow, RunsLeaveBodies};
ghost use Rattle.page_table.specs.Laws.{RunsLeaveFrames, TurnsComeNearer, TurnsLeaveFrames};
ghost use Rattle.page_table.specs.Laws.{TurnsStand};

/// A run has one end. It only adds to the steps asked, each after what was committed by then, and
/// to the pieces committed; it starts no session after a commit, and takes away no frame that
/// stood before it.
pub fn runs()
    ensures one { OneEnd }
    ensures grow { RunsGrow }
    ensures frames { RunsLeaveFrames }
    ensures turns { TurnsLeaveFrames }
{}

/// Code whose shapes fit is never stuck, keeps its shapes and the bodies that were kept before it,
/// and comes to an end.
pub fn checked()
    ensures stuck { NeverStuck }
    ensures finds { EachFinds }
    ensures stand { TurnsStand }
    ensures bodies { RunsLeaveBodies }
    ensures nearer { TurnsComeNearer }
    ensures ends { EachRunEnds }
{}

/// Calls, fragments, includes, beans and loops are those of the meaning, where the code that runs
/// one level deeper stands for the nodes.
pub fn rows()
    ensures { RowsAgree }
{}
