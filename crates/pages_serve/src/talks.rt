ghost use Rattle.std.specs.Prelude.{◌≡◌};
ghost use Rattle.pages_serve.specs.declared.pages.Audience.TheVariants.{Editors, Previews, Readers};

use crate::pages::{Audience, Pages};
use site_rounds::Talks;
use std::alloc::Global;

/// How connections are answered: those of readers, those of editors, and those on which drafts are
/// shown, each on a port of their own.
pub fn talks_of(alloc: Global) -> Talks<Pages>
    ensures readers { result.readers.audience ≡ Readers }
    ensures editors { result.editors.audience ≡ Editors }
    ensures previews { result.previews.audience ≡ Previews }
{
    Talks {
        readers: Pages {
            alloc,
            audience: Audience::Readers,
        },
        editors: Pages {
            alloc,
            audience: Audience::Editors,
        },
        previews: Pages {
            alloc,
            audience: Audience::Previews,
        },
    }
}
