ghost use Rattle.std.specs.Prelude.{◌≡◌, ◌<◌, ◌++◌, ◌∷◌, [], false, true, length, IfOk};
ghost use Rattle.std.specs.Bool.{Decides};
ghost use Rattle.compiled_pages.specs.Pages.{needs_at};
ghost use Rattle.journal_entries.specs.Bases.{AreBases, base_in, bases_with, is_begin};
ghost use Rattle.site_journal.specs.Reading.{is_roll};
ghost use Rattle.site_words.specs.Law.{Follows};
ghost use Rattle.site_words.specs.State.{after};

use crate::bases::Bases;
use crate::making::made_for;
use compiled_pages::Made;
use site_core::{Act, Gift, Given, Site};
use site_words::{Acted, Entry, Op, Reply};
use std::alloc::{AllocError, Global};
use word_equality::Same;

/// Does an entry of a journal once more on the site; a Roll isn't done. True exactly where it may
/// come at this place and the site gives the reply that is written: then the site has it as its
/// last entry. Where it is false, or memory ran out, the site may have done something else, and is
/// to be let go.
pub(crate) fn do_entry(
    alloc: Global,
    site: &mut Site<Made>,
    bases: &mut Bases,
    entry: Entry,
) -> Result<bool, AllocError>
    requires acts { is_roll entry ≡ false }
    requires bases { AreBases (after needs_at site.old.opening site.old.history).runs bases.old }
    ensures opening { site.new.opening ≡ site.old.opening }
    ensures follows { IfOk result (λ done. Decides done (Follows needs_at site.old.opening
        (after needs_at site.old.opening site.old.history) entry)) }
    ensures history { IfOk result (λ done. done ≡ true → site.new.history ≡ site.old.history ++ entry ∷ []) }
    ensures bases { IfOk result (λ done. done ≡ true →
        AreBases (after needs_at site.new.opening site.new.history).runs bases.new) }
{
    let Entry { pass, op, reply } = entry;
    if !site.fits(pass, &op) {
        return Ok(false);
    }
    site.law();
    let made = made_for(alloc, site, bases, pass, &op)?;
    let begins = is_begin(&op);
    match site.apply(pass, Act { op, made }) {
        Acted::Did(Given { reply: given, gift }) => {
            keep_base(bases, pass, begins, gift);
            Ok(given.is_same(&reply))
        }
        Acted::Refused(_) => Ok(false),
        Acted::NoMemory => Err(AllocError),
    }
}

/// Whether a Roll may come now, and has its reply.
pub(crate) fn may_roll(site: &Site<Made>, entry: &Entry) -> bool
    requires rolls { is_roll entry.now ≡ true }
    ensures { Decides result (Follows needs_at site.now.opening (after needs_at site.now.opening
        site.now.history) entry.now) }
{
    site.fits(entry.pass, &entry.op) && entry.reply.is_same(&Reply::Rolled)
}

// Whether it is the operation by which a request begins.
fn is_begin(op: &Op) -> bool
    ensures { result ≡ is_begin op.now }
{
    matches!(op, Op::Begin { .. })
}

// Keeps the tree of a request that began.
fn keep_base(bases: &mut Bases, pass: u8, begins: bool, gift: Gift<Made>)
    requires { pass < length bases.old }
    ensures { bases.new ≡ bases_with begins (base_in gift) pass bases.old }
{
    if !begins {
        return;
    }
    if let Gift::Start(tree, _) = gift {
        bases.begin(pass, tree);
    }
}
