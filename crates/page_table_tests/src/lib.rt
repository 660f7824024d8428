//! Worked codes, run by the table: each is a clause of a function without a body of its own.
#![tactic(auto)]

ghost use Rattle.page_table_tests.specs.Codes.{CallWithBody, Caught, CaughtInBody, EachItem};
ghost use Rattle.page_table_tests.specs.Codes.{LastVisit, NoLevel, NotCaught, Redirected};
ghost use Rattle.page_table_tests.specs.Codes.{SumWritten, TextsJoined};
ghost use Rattle.page_table_tests.specs.Steps.{StepsRun};

/// What so many turns give is a run.
pub fn steps()
    ensures { StepsRun }
{}

/// Codes with their ends.
pub fn codes()
    ensures sum { SumWritten }
    ensures joined { TextsJoined }
    ensures each { EachItem }
    ensures caught { Caught }
    ensures caught_in_body { CaughtInBody }
    ensures not_caught { NotCaught }
    ensures call { CallWithBody }
    ensures level { NoLevel }
    ensures visit { LastVisit }
    ensures redirected { Redirected }
{}
