ghost use Rattle.std.specs.Prelude.{◌≡◌, ◌≤◌, [], IfOk, length, vec_capacity};
ghost use Rattle.site_rounds.specs.Parted.{IsParted};

use site_shared::SitePasses;
use site_words::Compiled;
use std::alloc::{AllocError, Global};

/// What is for readers, for editors, and for previews.
#[derive(Drop)]
pub(crate) struct ByAudience<T> {
    pub(crate) readers: T,
    pub(crate) editors: T,
    pub(crate) previews: T,
}

/// The passes of a site by whom their connections are for, where so many are shown drafts.
pub(crate) fn parted<P: Compiled>(
    mut passes: SitePasses<P>,
    shown: usize,
) -> Result<ByAudience<SitePasses<P>>, AllocError>
    requires { shown ≤ length passes.items }
    ensures { IfOk result (λ parted. IsParted shown passes.items parted.readers.items parted.editors.items
        parted.previews.items) }
{
    let previews = passes.split_off(passes.len() - shown)?;
    let editors = passes.split_off(passes.len().saturating_sub(1))?;
    Ok(ByAudience {
        readers: passes,
        editors,
        previews,
    })
}

/// Room for a worker of each pass.
pub(crate) fn rooms<P: Compiled, W: Drop>(
    alloc: Global,
    passes: &ByAudience<SitePasses<P>>,
) -> Result<ByAudience<Vec<W>>, AllocError>
    ensures readers { IfOk result (λ rooms. (rooms.readers.items ≡ [])
        × (length passes.now.readers.items ≤ vec_capacity rooms.readers)) }
    ensures editors { IfOk result (λ rooms. (rooms.editors.items ≡ [])
        × (length passes.now.editors.items ≤ vec_capacity rooms.editors)) }
    ensures previews { IfOk result (λ rooms. (rooms.previews.items ≡ [])
        × (length passes.now.previews.items ≤ vec_capacity rooms.previews)) }
{
    let readers = Vec::with_capacity(alloc, passes.readers.len())?;
    let editors = Vec::with_capacity(alloc, passes.editors.len())?;
    let previews = Vec::with_capacity(alloc, passes.previews.len())?;
    Ok(ByAudience {
        readers,
        editors,
        previews,
    })
}
