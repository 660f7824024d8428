ghost use Rattle.std.specs.Prelude.{◌≡◌, true, IfOk, Option};
ghost use Rattle.std.specs.Bool.{Decides};
ghost use Rattle.compiled_pages.specs.Pages.{needs_at};
ghost use Rattle.journal_audit.specs.Judge.{GoesOnAs, IsJudged, IsOpenedJudged, IsTalkJudged, seen};
ghost use Rattle.journal_reader.specs.Next.{IsJournalOf};
ghost use Rattle.right_journal.specs.Right.{IsRightOpening, Journal as TheJournal};
ghost use Rattle.site_journal.specs.Reading.{EndsByRoll};
ghost use Rattle.site_words.specs.Opening.{is_sound, next_opening};
ghost use Rattle.site_words.specs.State.{after};

use crate::verdict::Why;
use compiled_pages::Made;
use journal_entries::{Again, do_again};
use journal_reader::{Entries, Journal};
use recorded_talk::is_right;
use site_core::{Site, sound};
use site_journal::Talk;
use site_words::Opening;
use std::alloc::{AllocError, Global};
use word_equality::Same;

/// What is said of one journal.
#[derive(Drop)]
pub(crate) enum Judged {
    /// It is right, and this opening goes on from it.
    Right(Opening),
    Wrong(Why),
}

/// Judges a journal, behind another from which this opening goes on, or at the beginning.
pub(crate) fn judge(
    alloc: Global,
    before: &Option<Opening>,
    journal: Journal,
) -> Result<Judged, AllocError>
    requires { IsJournalOf journal }
    ensures { (last : Option TheJournal) → GoesOnAs needs_at last before.now →
        IfOk result (IsJudged needs_at last (seen journal)) }
{
    let Journal {
        opening,
        history,
        talk,
    } = journal;
    if !may_open(before, &opening) {
        return Ok(Judged::Wrong(Why::Opening));
    }
    judge_opened(alloc, opening, history, talk)
}

// Judges the entries and the talk of a journal whose opening is right.
fn judge_opened(
    alloc: Global,
    opening: Opening,
    history: Entries,
    talk: Option<Talk>,
) -> Result<Judged, AllocError>
    requires sound { is_sound opening ≡ true }
    requires rolls { EndsByRoll history }
    ensures { IfOk result (IsOpenedJudged needs_at opening history talk) }
{
    let mut site = Site::resume(alloc, opening)?;
    let first = site.next_opening()?;
    match do_again(alloc, &mut site, history)? {
        Again::Fails(place) => Ok(Judged::Wrong(Why::Entry(place))),
        Again::Legal => judge_talk(alloc, &site, first, talk),
    }
}

// Judges the talk of a journal that has this opening, and whose entries but the Roll the site has
// done.
fn judge_talk(
    alloc: Global,
    site: &Site<Made>,
    opening: Opening,
    talk: Option<Talk>,
) -> Result<Judged, AllocError>
    requires { is_sound opening ≡ true }
    ensures { IfOk result (IsTalkJudged needs_at opening site.now.history talk
        (next_opening site.now.opening (after needs_at site.now.opening site.now.history))) }
{
    let next = site.next_opening()?;
    let Some(talk) = talk else {
        return Ok(Judged::Right(next));
    };
    let again = Site::resume(alloc, opening)?;
    if is_right(alloc, again, talk, site.history())? {
        Ok(Judged::Right(next))
    } else {
        Ok(Judged::Wrong(Why::Talk))
    }
}

// Whether a site may have the opening, and it is the one that goes on, where one stands before.
fn may_open(before: &Option<Opening>, opening: &Opening) -> bool
    ensures right { (last : Option TheJournal) → GoesOnAs needs_at last before.now →
        Decides result (IsRightOpening needs_at last opening.now) }
    ensures sound { result ≡ true → is_sound opening.now ≡ true }
{
    if !sound(opening) {
        return false;
    }
    match before {
        Some(before) => opening.is_same(before),
        None => true,
    }
}
