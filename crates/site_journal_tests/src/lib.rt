//! Journals byte by byte, as a program wrote them that was made from the format alone.
#![tactic(auto)]

ghost use Rattle.site_journal_tests.specs.Examples.{IsFirst, IsOther};

/// The definition of a journal's bytes gives these for two sites. This call does nothing: its
/// contract says so.
pub fn examples()
    ensures first { IsFirst }
    ensures other { IsOther }
{}
