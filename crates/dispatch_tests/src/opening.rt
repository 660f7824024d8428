ghost use Rattle.std.specs.Prelude.{◌≡◌, [], IfOk};
ghost use Rattle.pass_course.specs.Course.{IsIdle};

use compiled_pages::Made;
use pg_text::resolve;
use pg_value::Attrs;
use site_core::{Site, SoloPort, solo, sound};
use site_words::{KeptSessions, Opening};
use source_tree::{Edit, Edits, FileText, Tree};
use std::alloc::Global;
use std::test::Fail;

/// The limit of a journal that never gets full here.
pub const AMPLE: u64 = 2_147_483_648;

/// A site of these files at this version, for as many passes, whose journal weighs at most `limit`.
/// Its sessions end once they weren't used for 1,800 seconds.
pub fn resumed(
    alloc: Global,
    files: &[(&str, &str)],
    limit: u64,
    version: u64,
    passes: u8,
) -> Result<Site<Made>, Fail>
    ensures history { IfOk result (λ site. site.history ≡ []) }
    ensures passes { IfOk result (λ site. site.opening.passes ≡ passes) }
{
    let opening = Opening {
        seed: [0; 32],
        limit,
        passes,
        idle: 1_800,
        version,
        begins: 0,
        freshes: 0,
        moment: 0,
        app: Attrs::empty(alloc),
        tree: Tree::new(alloc).apply(&edits_of(alloc, files)?, 0)?,
        sessions: KeptSessions::empty(alloc),
    };
    if !sound(&opening) {
        return Err(Fail::new("no site opens so"));
    }
    Ok(Site::<Made>::resume(alloc, opening)?)
}

/// The port of a site of these files on which nobody else acts, whose journal weighs at most
/// `limit`.
pub fn opened(alloc: Global, files: &[(&str, &str)], limit: u64) -> Result<SoloPort<Made>, Fail>
    ensures { IfOk result (λ port. IsIdle port.actor.site.opening 0 port.actor.site.history) }
{
    Ok(solo(resumed(alloc, files, limit, 0, 1)?))
}

/// Edits that put these files.
pub fn edits_of(alloc: Global, files: &[(&str, &str)]) -> Result<Edits, Fail> {
    let mut edits = Edits::new(alloc);
    for (path, text) in files {
        let path = resolve(alloc, None, path)?;
        edits.push(Edit::Put(path, FileText::copy_of(alloc, text)?))?;
    }
    Ok(edits)
}
