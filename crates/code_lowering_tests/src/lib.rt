//! Worked pages: the cells of their programs, and their ends by the table and by the meaning.
#![tactic(auto)]

ghost use Rattle.code_lowering_tests.specs.Codes.{LoopWithTest};
ghost use Rattle.code_lowering_tests.specs.Ends.{Called, Caught, EachNumber, FaultInFragment};
ghost use Rattle.code_lowering_tests.specs.Ends.{FaultIncluded, Included, NoLevel};

/// The cells of a program.
pub fn codes()
    ensures { LoopWithTest }
{}

/// The ends of programs.
pub fn ends()
    ensures each { EachNumber }
    ensures caught { Caught }
    ensures called { Called }
    ensures fault_in_fragment { FaultInFragment }
    ensures no_level { NoLevel }
    ensures included { Included }
    ensures fault_included { FaultIncluded }
{}
