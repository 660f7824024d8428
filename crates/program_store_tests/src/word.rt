ghost use Rattle.std.specs.Prelude.{ℕ, List, [], refl};
ghost use Rattle.source_tree.specs.declared.file.File.{File as TheFile};
ghost use Rattle.source_tree.specs.declared.need.Need.{Need as TheNeed};

use crate::listed::path;
use pg_text::{BadPath, Failure, Listed};
use site_words::Compiled;
use source_tree::{Need, Stamps};
use std::alloc::Global;
use std::sync::Arc;

/// A value that keeps these needs.
#[derive(Drop)]
pub struct Word {
    pub stamps: Stamps,
}

impl Compiled for Word {
    ghost needs = { λ tree path. [] };

    ghost made = { λ value tree path. ⊥ };

    ghost needed = { λ value. value.stamps };

    fn stamps(&self) -> &Stamps {
        &self.stamps
    }

    ghost keeps = { λ value tree path made. absurd made };

    ghost stand = { λ tree path. refl };

    ghost agreeing = { λ value a b path one agree made. absurd made };
}

/// A value that needs these names, each with its stamp or absent.
pub fn needing(
    alloc: Global,
    needs: &[(&str, Option<u64>)],
) -> Result<Arc<Word>, Failure<BadPath>> {
    let mut stamps = Listed::empty(alloc);
    for (text, stamp) in needs {
        stamps.push(Need {
            name: path(alloc, text)?,
            stamp: *stamp,
        })?;
    }
    Ok(Arc::new(alloc, Word { stamps })?)
}
