//! Worked histories of a site, computed by its definitions: each is a clause of a function without
//! a body of its own.
#![tactic(auto)]

ghost use Rattle.site_words_tests.specs.AtLimits.{FullIsSound, OneGivesWay, TooManyFiles};
ghost use Rattle.site_words_tests.specs.Worked.{Abandon, AllAttributes, AttributesAreKept};
ghost use Rattle.site_words_tests.specs.Worked.{EighthId, FirstId, FortyReads, IdleSessions};
ghost use Rattle.site_words_tests.specs.Worked.{LastReadFits, NoRoom, OlderRequests};
ghost use Rattle.site_words_tests.specs.Worked.{OpeningIsSound, Pictures, ReadWeighs, RoomForOne};
ghost use Rattle.site_words_tests.specs.Worked.{SecondId, Sessions, SetWeighs, StaleBase};
ghost use Rattle.site_words_tests.specs.Worked.{StepsOfTwoPasses, ThirdId};

/// Histories of a few steps, and what entries weigh.
pub fn worked()
    ensures steps_of_two_passes { StepsOfTwoPasses }
    ensures sessions { Sessions }
    ensures stale_base { StaleBase }
    ensures no_room { NoRoom }
    ensures room_for_one { RoomForOne }
    ensures idle_sessions { IdleSessions }
    ensures abandon { Abandon }
    ensures older_requests { OlderRequests }
    ensures all_attributes { AllAttributes }
    ensures pictures { Pictures }
    ensures forty_reads { FortyReads }
    ensures read_weighs { ReadWeighs }
    ensures set_weighs { SetWeighs }
    ensures last_read_fits { LastReadFits }
    ensures opening_is_sound { OpeningIsSound }
    ensures attributes_are_kept { AttributesAreKept }
    ensures first_id { FirstId }
    ensures second_id { SecondId }
    ensures third_id { ThirdId }
    ensures eighth_id { EighthId }
{}

/// Sites with as many sessions or files as there may be.
pub fn limits()
    ensures one_gives_way { OneGivesWay }
    ensures full_is_sound { FullIsSound }
    ensures too_many_files { TooManyFiles }
{}
