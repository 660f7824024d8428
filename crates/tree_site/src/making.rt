// What stands at the paths of a tree.
ghost use Rattle.std.specs.Prelude.{◌≡◌, ◌<◌, IfOk, IsSome};
ghost use Rattle.compiled_pages.specs.Made.{IsFaultOf, IsMade, IsProgramOf};
ghost use Rattle.site_words.specs.Running.{IsPaged};
ghost use Rattle.source_tree.specs.Limits.{IsWithinLimits};
ghost use Rattle.tree_site.specs.Told.{body_told};
ghost use Rattle.unit_source.specs.Files.{text_in};

use compiled_pages::{Made, MadeBody};
use edges::{Steps, Unseen};
use pg_text::Path;
use run_world::Program;
use site_words::{Paged, is_page};
use source_tree::Tree;
use std::alloc::{AllocError, Global};
use std::marker::Brand;
use std::sync::ledger::{Blank, Ledger};
use tree_pages::make;

// What is made of the page at a path. Its steps are counted for nobody.
fn uncounted<N: Ledger>(
    alloc: Global,
    blank: Blank,
    tree: &Tree,
    path: &Path,
) -> Result<Made, AllocError>
    requires name { blank.name ≡ N.name }
    requires parts { blank.parts ≡ N.parts }
    requires some { 0 < N.parts }
    requires limits { IsWithinLimits tree.now }
    requires stands { IsSome (text_in tree.now path.now) }
    ensures { IfOk result (λ made. IsMade made tree.now path.now) }
{
    let mut steps = Steps::<Unseen<N>>::unseen(blank);
    make(alloc, tree, path, &mut steps)
}

/// What stands at a path of a tree: no file, the text of one that is no page, or what is made of a
/// page.
pub fn paged(alloc: Global, tree: &Tree, path: &Path) -> Result<Paged<Program>, AllocError>
    requires limits { IsWithinLimits tree.now }
    ensures { IfOk result (λ paged. IsPaged IsProgramOf IsFaultOf tree.now path.now paged) }
{
    let Some(file) = tree.get(path) else {
        return Ok(Paged::Absent);
    };
    if !is_page(path) {
        return Ok(Paged::Plain(file.text.copy()?));
    }
    let made = uncounted::<Brand>(alloc, Blank::new(1), tree, path)?;
    Ok(body_told(made.body))
}

// What is made of a page, as a port tells it.
fn body_told(body: MadeBody) -> Paged<Program>
    ensures { result ≡ body_told body }
{
    match body {
        MadeBody::Program(program) => Paged::Page(program),
        MadeBody::Fault(fault) => Paged::Bad(fault),
    }
}
