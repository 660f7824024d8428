ghost use Rattle.std.specs.Prelude.{◌≡◌, IfOk};
ghost use Rattle.std.specs.Option.{option_map};
ghost use Rattle.page_directives.specs.Taglibs.{target_of};
ghost use Rattle.unit_source.specs.InPlace.{all_directives};
ghost use Rattle.unit_source.specs.Placed.{in_place};

use page_directives::{Before, Directive, Target};
use std::alloc::{AllocError, Global};
use std::marker::Model;
use unit_source::{PlacedNode, directives};

/// The directives of both readings of a page or tag file, with what each prefix stands for.
/// Contracts see the list of them.
#[derive(Drop)]
pub struct Registered<'r> {
    all: Before<'r>,
}

impl<'r> Model for Registered<'r> {
    ghost use Rattle.std.specs.Prelude.{List};
    ghost use Rattle.page_directives.specs.Directive.{Directive as Seen};

    ghost Value = { List Seen };

    ghost view = { λ r. r.all.directives };
}

impl<'r> Registered<'r> {
    // Registers these directives, in their order.
    fn new(alloc: Global, directives: Vec<Directive<'r>>) -> Result<Self, AllocError>
        ensures { IfOk result (λ registered. registered ≡ directives.entry.items) }
    {
        let mut all = Before::new(alloc);
        for directive in directives {
            all.push(directive)?;
        }
        Ok(Registered { all })
    }

    /// The directives of nodes in place.
    pub fn in_nodes(alloc: Global, nodes: &'r [PlacedNode]) -> Result<Self, AllocError>
        ensures { IfOk result (λ registered. registered ≡ all_directives (in_place nodes.now)) }
    {
        let directives = directives(alloc, nodes)?;
        Registered::new(alloc, directives)
    }

    /// The directives, in reading order.
    pub fn as_slice(&self) -> &[Directive<'r>]
        ensures { result.now ≡ self.now }
    {
        self.all.directives()
    }

    /// What a prefix stands for.
    pub fn target(&self, prefix: &str) -> Option<&Target>
        ensures { option_map (λ target. target.now) result ≡ target_of prefix.now self.now }
    {
        self.all.target(prefix)
    }
}
