ghost use Rattle.std.specs.Prelude.{◌≡◌, ◌≤◌};
ghost use Rattle.std.specs.Option.{option_copied};
ghost use Rattle.rollover.specs.Roll.{Rolls, is_spent};
ghost use Rattle.site_words.specs.Invariants.{AllRest};

use edges::{Failed, Sink};
use site_core::Site;
use site_journal::{Talk, write_journal};
use site_words::laws::rollover;
use site_words::{COUNT_END, Compiled, Opening};
use std::alloc::Global;

/// What a rollover came to: a new site, or the old one as it was.
#[derive(Drop)]
pub enum Rolled<P: Compiled> {
    /// The journal was written, and this site goes on.
    Done(Site<P>),
    /// The sink failed.
    WriteFault(Site<P>),
    /// A count is too great for the opening of another site.
    Spent(Site<P>),
    NoMemory(Site<P>),
}

/// Writes the journal of a site on which no request is under way, with the talk where one
/// connection made it, and goes on as a new site. All memory is taken before the first byte goes
/// out. Where the sink failed it has taken a part of the journal, perhaps none.
pub fn roll<P: Compiled, K: Sink>(
    alloc: Global,
    site: Site<P>,
    talk: Option<&Talk>,
    sink: &mut K,
) -> Rolled<P>
    requires { AllRest site.opening site.history }
    ensures rolls { Rolls P.needs site (option_copied talk.entry) (K.taken sink.old) (K.taken sink.new)
        (K.faults sink.old) (K.faults sink.new) result }
    ensures later { K.faults sink.old ≤ K.faults sink.new }
{
    site.law();
    rollover();
    let Ok(opening) = site.next_opening() else {
        return Rolled::NoMemory(site);
    };
    if is_spent(&opening) {
        return Rolled::Spent(site);
    }
    let Ok(next) = Site::resume(alloc, opening) else {
        return Rolled::NoMemory(site);
    };
    match write_journal(sink, site.opening(), site.history(), talk) {
        Ok(()) => Rolled::Done(next),
        Err(Failed) => Rolled::WriteFault(site),
    }
}

// Whether a count is too great for the opening of another site.
fn is_spent(opening: &Opening) -> bool
    ensures { result ≡ is_spent opening.now }
{
    opening.version >= COUNT_END || opening.begins >= COUNT_END || opening.freshes >= COUNT_END
}
