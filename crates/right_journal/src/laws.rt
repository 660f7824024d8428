ghost use Rattle.right_journal.specs.Verdict.{VerdictsAreOne};

use site_journal::one_reading;

/// There is at most one verdict on the bytes of journals: which journals stand in them, and which
/// part of the first wrong one is wrong first, is a function of the bytes.
pub fn one_verdict()
    ensures { VerdictsAreOne }
{
    one_reading();
}
