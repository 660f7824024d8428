ghost use Rattle.std.specs.Bool.{Decides};
ghost use Rattle.recorded_talk.specs.Rerun.{IsSameTalk};

use crate::talking::Rerun;
use crate::waiting::are_left;
use packed_entries::History;
use pg_text::Bytes;
use word_equality::same_entries;

/// Whether what was run again came to these answers, this end and this history, and took exactly
/// the moments that were recorded. Afterwards its clock tells nothing of that any more.
pub(crate) fn is_same_talk(again: &mut Rerun, answers: &Bytes, ended: u8, history: &History) -> bool
    ensures { Decides result (IsSameTalk again.old answers.now ended history.now.items) }
{
    again.number == ended
        && again.sink.taken() == answers.as_slice()
        && are_left(&mut again.clock)
        && same_entries(again.site.history(), history)
}
