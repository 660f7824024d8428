//! The laws of legal histories, each a clause of a function without a body of its own.
ghost use Rattle.site_words.specs.Laws.{BeginsLatest, DoneIsLegal, FitsMay, MayFits, MayLasts};
ghost use Rattle.site_words.specs.Laws.{NeedsStand, NeverBusyAlone, NeverOlder, NextIsSound};
ghost use Rattle.site_words.specs.Laws.{OrderStays, OwnDecides, PromisesAreKept};
ghost use Rattle.site_words.specs.Laws.{RequestsHaveTheirTrees, RollsOver, SessionsAreApart};
ghost use Rattle.site_words.specs.Laws.{SessionsAreGood, StampsNameFiles, StampsNameTexts};
ghost use Rattle.site_words.specs.Laws.{SureLasts, TreeIsSound, UnchangedStands, VersionCounts};

/// What a pass may do is decided by its own entries and by what is published, and lasts until it
/// acts.
pub fn passes()
    ensures decides { OwnDecides }
    ensures may_lasts { MayLasts }
    ensures sure_lasts { SureLasts }
    ensures may_fits { MayFits }
    ensures fits_may { FitsMay }
    ensures done { DoneIsLegal }
{}

/// Versions count the publishings, and a stamp names the one version that put a text.
pub fn versions()
    ensures counts { VersionCounts }
    ensures latest { BeginsLatest }
    ensures older { NeverOlder }
    ensures requests { RequestsHaveTheirTrees }
    ensures texts { StampsNameTexts }
    ensures files { StampsNameFiles }
    ensures limits { TreeIsSound }
    ensures order { OrderStays }
{}

/// What no edit changes stands as before, and so does what needs only such names.
pub fn changes()
    ensures names { UnchangedStands }
    ensures needs { NeedsStand }
{}

/// A request can always end, and a session is held by one request at most.
pub fn requests()
    ensures promises { PromisesAreKept }
    ensures sessions { SessionsAreGood }
    ensures apart { SessionsAreApart }
    ensures alone { NeverBusyAlone }
{}

/// Histories go on from a Roll as one; and an opening that goes on from a sound one is sound, as
/// long as its counts are below their end.
pub fn rollover()
    ensures one { RollsOver }
    ensures sound { NextIsSound }
{}
