ghost use Rattle.context_law.specs.OneShare.{IsSameInTwoWorlds, WalksAreOne};

use page_meaning::requests;

/// Where one pass alone acts on a context's site, what is answered there is a function of what was
/// asked of that context, of the moments that this took, and of what stood there; so in two worlds
/// that are the same in these, its answers and its state are the same.
pub fn one_share<H>()
    ensures walks { WalksAreOne H }
    ensures worlds { IsSameInTwoWorlds H }
{
    requests();
}
