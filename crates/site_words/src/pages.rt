// The paths of pages, and what asking for one is charged.
ghost use Rattle.std.specs.Prelude.{◌≡◌, ◌≤◌};
ghost use Rattle.site_words.specs.PageSteps.{page_charge};
ghost use Rattle.site_words.specs.Running.{is_page};

use crate::MAX_PAGE_CHARGE;
use crate::affixes::has_suffix;
use pg_text::Path;

/// Whether a path is that of a page. What stands at another is sent as it is.
pub fn is_page(path: &Path) -> bool
    ensures { result ≡ is_page path.now }
{
    let bytes = path.as_bytes();
    has_suffix(bytes, b".jsp") || has_suffix(bytes, b".jspx")
}

/// What the run of a page is charged: its Fetch and its Offer.
pub fn page_charge(path: &Path) -> u64
    ensures charge { result ≡ page_charge path.now }
    ensures short { result ≤ MAX_PAGE_CHARGE }
{
    160 + 2 * path.as_bytes().len() as u64
}
