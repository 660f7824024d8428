ghost use Rattle.code_lowering.specs.Laws.{ProgramsFit, ProgramsMean};

/// The program of a page means the page, and its shapes fit.
pub fn programs()
    ensures mean { ProgramsMean }
    ensures fit { ProgramsFit }
{}
