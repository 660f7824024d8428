// What a run is charged for what it asks of the site.
ghost use Rattle.std.specs.Prelude.{◌≡◌, ◌≤◌, ◌&&◌, ◌+◌, nat_le};
ghost use Rattle.page_meaning.specs.Work.{charge_limit};
ghost use Rattle.site_words.specs.Running.{is_page, page_claim};
ghost use Rattle.site_words.specs.Weights.{capped, step_weight};

use page_meaning::CHARGE_LIMIT;
use pg_text::Path;
use site_words::{AppStep, MAX_PAGE_CHARGE, OP_WEIGHT, is_page, page_charge, step_weight};

/// Whether this charge lets nothing more be asked.
pub(crate) fn is_spent(charge: u64) -> bool
    ensures { result ≡ nat_le charge_limit charge }
{
    charge >= CHARGE_LIMIT
}

/// What the entry of a step weighs without its answer.
pub(crate) fn entry_weight(step: &AppStep) -> u64
    ensures { result ≡ capped (OP_WEIGHT + step_weight step.now) }
{
    step_weight(step).saturating_add(OP_WEIGHT)
}

/// Whether a page is asked for under a charge that lets nothing more be asked. Another file may
/// always be asked for.
pub(crate) fn is_refused(path: &Path, charge: u64) -> bool
    ensures { result ≡ (is_page path.now && nat_le charge_limit charge) }
{
    is_page(path) && is_spent(charge)
}

/// What a look at a path is charged: for a page its Fetch and its Offer, and nothing for another
/// file.
pub(crate) fn look_charge(path: &Path) -> u64
    ensures claim { result ≡ page_claim path.now }
    ensures short { result ≤ MAX_PAGE_CHARGE }
{
    if is_page(path) { page_charge(path) } else { 0 }
}
