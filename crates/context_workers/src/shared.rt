ghost use Rattle.std.specs.Prelude.{◌≡◌, All, IfOk, length, map};
ghost use Rattle.contexts.specs.Sites.{Rests};
ghost use Rattle.context_workers.specs.Seats.{AreSeated};
ghost use Rattle.site_rounds.specs.Ready.{IsReady};

use contexts::Contexts;
use edges::Gate;
use site_core::into_site;
use site_shared::{SharedSite, SitePasses, start};
use site_words::Compiled;
use std::alloc::{AllocError, Global};

/// Sites that are shared, and the passes of each, in the order of their names.
#[derive(Drop)]
pub struct SharedSites<P: Compiled, G: Gate + Drop> {
    pub sites: Vec<SharedSite<P, G>>,
    pub passes: Vec<SitePasses<P>>,
}

/// Shares the site of each context, on which no request is under way, among as many passes as its
/// opening says, all behind gates of this kind. Where memory runs out the sites are dropped.
pub fn share<P: Compiled, G: Gate + Copy + Drop>(
    alloc: Global,
    contexts: Contexts<P>,
    gate: G,
) -> Result<SharedSites<P, G>, AllocError>
    requires { All Rests contexts.sites.items }
    ensures count { IfOk result (λ shared. length shared.sites.items ≡ length contexts.sites.items) }
    ensures seated { IfOk result (λ shared. AreSeated IsReady shared.sites.items
        (map (λ own. own.items) shared.passes.items)) }
    ensures passes { IfOk result (λ shared. map length (map (λ own. own.items) shared.passes.items)
        ≡ map (λ site. site.opening.passes) contexts.sites.items) }
{
    let mut sites = Vec::new(alloc);
    let mut passes = Vec::new(alloc);
    for port in contexts.ports()?.ports {
        let (site, own) = start(alloc, into_site(port), gate)?;
        sites.push(site)?;
        passes.push(own)?;
    }
    Ok(SharedSites { sites, passes })
}
