ghost use Rattle.std.specs.Prelude.{◌≡◌, ◌<◌, true, IfOk, IsSome};
ghost use Rattle.std.specs.Arc.{arc_value};
ghost use Rattle.compiled_pages.specs.Made.{IsMade as IsMadeOf};
ghost use Rattle.compiled_pages.specs.Pages.{needs_at};
ghost use Rattle.journal_entries.specs.Bases.{AreBases};
ghost use Rattle.site_state.specs.Gifts.{IsMade, value_in};
ghost use Rattle.site_words.specs.Fits.{fits};
ghost use Rattle.site_words.specs.Law.{own, run_of};
ghost use Rattle.site_words.specs.State.{after};
ghost use Rattle.source_tree.specs.Limits.{IsWithinLimits};
ghost use Rattle.unit_source.specs.Files.{text_in};

use crate::bases::Bases;
use compiled_pages::Made;
use edges::{Steps, Unseen};
use pg_text::Path;
use site_core::Site;
use site_words::Op;
use source_tree::Tree;
use std::alloc::{AllocError, Global};
use std::marker::Brand;
use std::sync::Arc;
use std::sync::ledger::{Blank, Ledger};
use translator::translate;
use unit_build::build;

/// What an operation brings with it that may come now: an Offer what is made of its page by the
/// tree of its request.
pub(crate) fn made_for(
    alloc: Global,
    site: &Site<Made>,
    bases: &Bases,
    pass: u8,
    op: &Op,
) -> Result<Option<Arc<Made>>, AllocError>
    requires fit { fits site.now.opening (after needs_at site.now.opening site.now.history) pass op.now ≡ true }
    requires bases { AreBases (after needs_at site.now.opening site.now.history).runs bases.now }
    ensures { IfOk result (λ made. IsMade (λ value tree path. IsMadeOf value tree path) site.now.opening
        site.now.history (run_of (own pass site.now.history)) op.now (value_in made)) }
{
    site.law();
    let Op::Offer { request: _, path } = op else {
        return Ok(None);
    };
    let Some(tree) = bases.get(pass) else {
        unreachable!()
    };
    Ok(Some(made::<Brand>(alloc, tree, path, Blank::new(1))?))
}

// What is made of the page at a path.
fn made<N: Ledger>(
    alloc: Global,
    tree: &Tree,
    path: &Path,
    blank: Blank,
) -> Result<Arc<Made>, AllocError>
    requires name { blank.name ≡ N.name }
    requires parts { blank.parts ≡ N.parts }
    requires some { 0 < N.parts }
    requires limits { IsWithinLimits tree.now }
    requires stands { IsSome (text_in tree.now path.now) }
    ensures { IfOk result (λ made. IsMadeOf (arc_value made) tree.now path.now) }
{
    let mut steps = Steps::<Unseen<N>>::unseen(blank);
    let unit = build(alloc, tree, path, &mut steps)?;
    Ok(Arc::new(alloc, translate(alloc, &unit)?)?)
}
