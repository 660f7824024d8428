ghost use Rattle.std.specs.Prelude.{◌≡◌, ◌≤◌, ◌<◌, All, Some, length, map, IfOk};
ghost use Rattle.std.specs.List.{slice_get};
ghost use Rattle.contexts.specs.Sites.{AppliesAt, Rests, seed_at, site_at, sites_of};
ghost use Rattle.site_core.specs.Lived.{Lived};
ghost use Rattle.site_state.specs.Gifts.{IsMade, value_in};
ghost use Rattle.site_words.specs.Law.{May, own, run_of};

use crate::limits::CONTEXT_JOURNAL_LIMIT;
use context_names::{ContextNames, PortList};
use pg_value::Attrs;
use site_core::{Site, SiteSettings, SoloPort, solo};
use site_state::{Act, Given};
use site_words::{Acted, Compiled, IDLE_SECONDS, Refusal};
use source_tree::Tree;
use std::alloc::{AllocError, Global};

/// The sites of several contexts, in the order of their names.
#[derive(Drop)]
pub struct Contexts<P: Compiled> {
    sites: Vec<Site<P>>,
}

/// A site without files for each name.
pub fn start<P: Compiled>(
    alloc: Global,
    names: &ContextNames,
    seed: [u8; 32],
    passes: u8,
) -> Result<Contexts<P>, AllocError>
    requires some { 1 ≤ passes }
    requires few { passes ≤ 64 }
    ensures { IfOk result (λ contexts. contexts.sites.items ≡ sites_of seed passes (length names.now)) }
{
    let mut sites = Vec::new(alloc);
    for context in 0..names.len() {
        sites.push(site_at(alloc, seed, passes, context as u8)?)?;
    }
    Ok(Contexts { sites })
}

// The site of a context, without files.
fn site_at<P: Compiled>(
    alloc: Global,
    seed: [u8; 32],
    passes: u8,
    context: u8,
) -> Result<Site<P>, AllocError>
    requires some { 1 ≤ passes }
    requires few { passes ≤ 64 }
    ensures { IfOk result (λ site. site ≡ site_at seed passes context) }
{
    // An array goes through a variable into a struct that is handed on: the prover doesn't follow
    // it there otherwise.
    let own = seed_at(seed, context);
    let settings = SiteSettings {
        seed: own,
        limit: CONTEXT_JOURNAL_LIMIT,
        passes,
        idle: IDLE_SECONDS,
    };
    let app = Attrs::empty(alloc);
    let tree = Tree::new(alloc);
    site_core::start(alloc, settings, app, tree)
}

// The seed of a context: its place is added to the last byte.
fn seed_at(seed: [u8; 32], context: u8) -> [u8; 32]
    ensures { result ≡ seed_at seed context }
{
    let mut own = seed;
    own[31] = seed[31].wrapping_add(context);
    own
}

impl<P: Compiled> Contexts<P> {
    /// How many contexts there are.
    pub fn len(&self) -> usize
        ensures { result ≡ length self.now.sites.items }
    {
        self.sites.len()
    }

    /// The site of a context.
    pub fn site(&self, context: u8) -> &Site<P>
        requires there { context < length self.now.sites.items }
        ensures { slice_get self.now.sites.items context ≡ Some result.now }
    {
        &self.sites[context as usize]
    }

    /// Does one operation of a pass in a context. No other context sees anything of it.
    pub fn apply(&mut self, context: u8, pass: u8, act: Act<P>) -> Acted<Given<P>, Refusal>
        requires there { context < length self.old.sites.items }
        requires may { (site : Lived) → slice_get self.old.sites.items context ≡ Some site
            → May site.opening site.history pass (own pass site.history) act.op }
        requires made { (site : Lived) → slice_get self.old.sites.items context ≡ Some site
            → IsMade P.made site.opening site.history (run_of (own pass site.history)) act.op (value_in act.made) }
        ensures applies { AppliesAt P.needs P.made self.old.sites.items self.new.sites.items context pass act.op
            result }
    {
        self.sites[context as usize].apply(pass, act)
    }

    /// The ports of the sites, on which nobody else acts; where memory runs out the sites are
    /// dropped.
    pub fn ports(self) -> Result<PortList<SoloPort<P>>, AllocError>
        requires rest { All Rests self.sites.items }
        ensures { IfOk result (λ list. map (λ port. port.actor.site) list.ports.items ≡ self.sites.items) }
    {
        let mut list = PortList::new(*self.sites.allocator());
        for site in self.sites {
            list.push(solo(site))?;
        }
        Ok(list)
    }
}
