ghost use Rattle.std.specs.Prelude.{◌≡◌};
ghost use Rattle.std.specs.Bool.{Decides};

use crate::lists::are_same;
use crate::same::Same;
use site_words::{KeptSession, Opening};
use source_tree::{File, Tree};

impl Same for File {
    fn is_same(&self, other: &File) -> bool {
        self.path.is_same(&other.path)
            && self.text.is_same(&other.text)
            && self.stamp == other.stamp
    }
}

impl Same for Tree {
    fn is_same(&self, other: &Tree) -> bool {
        are_same(self.iter().as_slice(), other.iter().as_slice())
    }
}

impl Same for KeptSession {
    fn is_same(&self, other: &KeptSession) -> bool {
        self.number == other.number && self.used == other.used && self.attrs.is_same(&other.attrs)
    }
}

impl Same for Opening {
    fn is_same(&self, other: &Opening) -> bool {
        self.seed == other.seed
            && same_limits(self, other)
            && same_counts(self, other)
            && self.app.is_same(&other.app)
            && self.tree.is_same(&other.tree)
            && are_same(self.sessions.as_slice(), other.sessions.as_slice())
    }
}

fn same_limits(one: &Opening, other: &Opening) -> bool
    ensures { Decides result ((one.now.limit ≡ other.now.limit) × (one.now.passes ≡ other.now.passes)
        × (one.now.idle ≡ other.now.idle)) }
{
    one.limit == other.limit && one.passes == other.passes && one.idle == other.idle
}

fn same_counts(one: &Opening, other: &Opening) -> bool
    ensures { Decides result ((one.now.version ≡ other.now.version) × (one.now.begins ≡ other.now.begins)
        × (one.now.freshes ≡ other.now.freshes) × (one.now.moment ≡ other.now.moment)) }
{
    one.version == other.version
        && one.begins == other.begins
        && one.freshes == other.freshes
        && one.moment == other.moment
}
