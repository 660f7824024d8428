ghost use Rattle.talk_law.specs.OneTalk.{TalksAreOne};
ghost use Rattle.talk_law.specs.RightTalk.{RecordsAreRight, RunsComeToIt, RunsShowIt};

use page_meaning::requests;
use talk_words::told_again;

/// Where one pass alone acts, two talks over the same bytes, from the same site and the same clock,
/// are one talk; so a talk is right exactly where running it again comes to it, and one that was
/// recorded is right.
pub fn one_talk()
    ensures one { TalksAreOne }
    ensures comes { RunsComeToIt }
    ensures shows { RunsShowIt }
    ensures records { RecordsAreRight }
{
    requests();
    told_again();
}
