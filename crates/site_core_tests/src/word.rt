ghost use Rattle.std.specs.Prelude.{◌≡◌, refl, []};

use site_words::Compiled;
use source_tree::Stamps;
use std::alloc::Global;

/// A value that needs nothing, and so is made from each tree and path.
#[derive(Drop)]
pub struct Word {
    pub stamps: Stamps,
}

impl Word {
    pub fn new(alloc: Global) -> Self
        ensures { result.stamps ≡ [] }
    {
        Word {
            stamps: Stamps::empty(alloc),
        }
    }
}

impl Compiled for Word {
    ghost needs = { λ tree path. [] };

    ghost made = { λ value tree path. value.stamps ≡ [] };

    ghost needed = { λ value. value.stamps };

    fn stamps(&self) -> &Stamps {
        &self.stamps
    }

    ghost keeps = { λ value tree path made. made };

    ghost stand = { λ tree path. refl };

    ghost agreeing = { λ value a b path one agree made. made };
}
