ghost use Rattle.std.specs.Prelude.{◌≡◌, [], IfOk};
ghost use Rattle.compiled_pages.specs.Pages.{needs_at};
ghost use Rattle.journal_entries.specs.Again.{IsAgain};
ghost use Rattle.site_journal.specs.Reading.{EndsByRoll};

use crate::bases::Bases;
use crate::entry::{do_entry, may_roll};
use compiled_pages::Made;
use pg_text::Listed;
use site_core::Site;
use site_words::Entry;
use std::alloc::{AllocError, Global};

/// What doing entries again comes to.
#[derive(Clone, Copy, Debug, PartialEq, Eq)]
pub enum Again {
    /// Each may come where it stands, and has the reply that the site gives.
    Legal,
    /// The one at this place, counted from 0, is the first that may not come, or has another reply.
    Fails(u64),
}

/// Does the entries of a journal again on a site of its opening. Where all are legal, the site has
/// done all but the Roll.
pub fn do_again(
    alloc: Global,
    site: &mut Site<Made>,
    history: Listed<Entry>,
) -> Result<Again, AllocError>
    requires new { site.old.history ≡ [] }
    requires rolls { EndsByRoll history }
    ensures opening { site.new.opening ≡ site.old.opening }
    ensures again { IfOk result (λ again. IsAgain needs_at site.old.opening history site.new.history again) }
{
    let mut entries = history.into_vec();
    let Some(last) = entries.pop() else {
        unreachable!()
    };
    let mut bases = Bases::new(alloc, site.opening().passes)?;
    for entry in entries {
        site.law();
        let place = site.len();
        if !do_entry(alloc, site, &mut bases, entry)? {
            return Ok(Again::Fails(place));
        }
    }
    site.law();
    if may_roll(site, &last) {
        Ok(Again::Legal)
    } else {
        Ok(Again::Fails(site.len()))
    }
}
