ghost use Rattle.record_law.specs.RightRecord.{CommandsAreRight, RecordsAreRight};

use site_words::laws::rollover;
use talk_law::one_talk;
use talk_words::each_once;

/// What was recorded from a sound opening, with one pass, is a right journal for each connection,
/// with the talk on that connection. So each journal that `record` writes whole is right, the first
/// at the beginning and each other behind the one before it, and the verdict on the bytes is that
/// they are so many right journals. Each can be a journal: its parts are such as have a code, since
/// they were written, and its last entry alone is a Roll, since a connection asks for none.
pub fn records_are_right()
    ensures records { RecordsAreRight }
    ensures command { CommandsAreRight }
{
    rollover();
    one_talk();
    each_once();
}
