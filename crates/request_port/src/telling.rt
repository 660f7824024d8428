// What is told of a page that was found.
ghost use Rattle.std.specs.Prelude.{ℕ, List, IfOk};
ghost use Rattle.std.specs.Arc.{arc_value};
ghost use Rattle.compiled_pages.specs.Made.{IsBodyOf, IsFaultOf, IsMade, IsProgramOf};
ghost use Rattle.request_port.specs.Leading.{IsLast};
ghost use Rattle.site_words.specs.Running.{IsPageFile, IsPaged};
ghost use Rattle.source_tree.specs.Edits.{file_at};
ghost use Rattle.source_tree.specs.declared.file.File.{File};

use compiled_pages::{Made, MadeBody};
use pg_text::Path;
use run_world::Program;
use site_words::Paged;
use std::alloc::AllocError;
use std::sync::Arc;

/// A page that was found at a path, which is kept as the last one.
pub(crate) fn tell(
    last: &mut Option<(Path, Arc<Made>)>,
    path: &Path,
    made: Arc<Made>,
) -> Result<Paged<Program>, AllocError>
    ensures paged { (tree : List File) → IsMade (arc_value made) tree path.now →
        IsPageFile path.now (file_at path.now tree) →
        IfOk result (λ found. IsPaged IsProgramOf IsFaultOf tree path.now found) }
    ensures last { (tree : List File) → IsMade (arc_value made) tree path.now → IsLast tree last.old →
        IsLast tree last.new }
{
    let found = paged(&made.body)?;
    let name = path.copy()?;
    *last = Some((name, made));
    Ok(found)
}

// The page or its fault.
pub(crate) fn paged(body: &MadeBody) -> Result<Paged<Program>, AllocError>
    ensures { (tree : List File) (path : List ℕ) → IsBodyOf body.now tree path →
        IsPageFile path (file_at path tree) →
        IfOk result (λ found. IsPaged IsProgramOf IsFaultOf tree path found) }
{
    match body {
        MadeBody::Program(program) => Ok(Paged::Page(Arc::try_clone(program)?)),
        MadeBody::Fault(fault) => Ok(Paged::Bad(fault.copy()?)),
    }
}
