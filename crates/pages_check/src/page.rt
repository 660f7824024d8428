ghost use Rattle.std.specs.Prelude.{◌≡◌, ◌≤◌, ◌+◌, ℕ, List, Some, length, IfOk, IsSome, OnOk};
ghost use Rattle.source_tree.specs.declared.limits.TheConstants.{MAX_FILE_BYTES};
ghost use Rattle.source_tree.specs.Limits.{IsWithinLimits};
ghost use Rattle.unit_source.specs.Files.{text_in};
ghost use Rattle.unit_words.specs.Needs.{bytes_of};
ghost use Rattle.unit_words.specs.Unit.{fault_in, unit_of};
ghost use Rattle.pages_check.specs.Check.{check_steps, unit_steps};
ghost use Rattle.pages_check.specs.Page.{alone, not_utf8, page_fault, too_large, unit_fault};

use edges::{Ledger, Steps};
use page_pieces::Spot;
use pg_text::{PageFault, Path, TranslationFault};
use source_tree::{File, FileText, MAX_FILE_BYTES, Tree};
use std::alloc::{AllocError, Global};
use unit_build::build;
use unit_nodes::{Unit, UnitBody};

/// The fault of the page with these bytes at a path, where it has one. Its unit is that of a site
/// with this file alone.
pub(crate) fn page_fault<L: Ledger>(
    alloc: Global,
    path: &Path,
    bytes: &[u8],
    steps: &mut Steps<L>,
) -> Result<Option<PageFault>, AllocError>
    ensures fault { IfOk result (λ fault. fault ≡ page_fault path.now bytes.now) }
    ensures steps { OnOk result (steps.new ≡ steps.old + check_steps path.now bytes.now) }
    ensures later { steps.old ≤ steps.new }
{
    if bytes.len() > MAX_FILE_BYTES {
        return Ok(Some(too_large(path)?));
    }
    match str::from_utf8(bytes) {
        Ok(text) => alone_fault(alloc, path, text, steps),
        Err(error) => {
            let front = str::from_utf8(&bytes[..error.valid_up_to()]).unwrap();
            Ok(Some(not_utf8(path, front)?))
        }
    }
}

// The fault of a file with too many bytes.
fn too_large(path: &Path) -> Result<PageFault, AllocError>
    ensures { IfOk result (λ fault. fault ≡ too_large path.now) }
{
    Ok(PageFault {
        fault: TranslationFault::TooLarge,
        place: Spot::start().place(path)?,
    })
}

// The fault of a file that is UTF-8 up to the end of this front: it stands right behind that.
#[tactic(auto, using(std::proofs::lemmas::List::take_all))]
fn not_utf8(path: &Path, front: &str) -> Result<PageFault, AllocError>
    requires { length front.now ≤ MAX_FILE_BYTES }
    ensures { IfOk result (λ fault. fault ≡ not_utf8 path.now front.now) }
{
    Ok(PageFault {
        fault: TranslationFault::NotUtf8,
        place: Spot::start().behind(front, "").place(path)?,
    })
}

// The fault of the page with this text that stands alone, where it has one.
fn alone_fault<L: Ledger>(
    alloc: Global,
    path: &Path,
    text: &str,
    steps: &mut Steps<L>,
) -> Result<Option<PageFault>, AllocError>
    requires { length text.now ≤ MAX_FILE_BYTES }
    ensures fault { IfOk result (λ fault. fault ≡ unit_fault path.now text.now) }
    ensures steps { OnOk result (steps.new ≡ steps.old + unit_steps path.now text.now) }
    ensures later { steps.old ≤ steps.new }
{
    let tree = alone(alloc, path, text)?;
    let fault = unit_fault(alloc, &tree, path, steps)?;
    Ok(fault)
}

// The fault of the unit of the page at a path, where it has one.
fn unit_fault<L: Ledger>(
    alloc: Global,
    tree: &Tree,
    path: &Path,
    steps: &mut Steps<L>,
) -> Result<Option<PageFault>, AllocError>
    requires limits { IsWithinLimits tree.now }
    requires stands { IsSome (text_in tree.now path.now) }
    ensures fault { IfOk result (λ fault. (text : List ℕ) → text_in tree.now path.now ≡ Some text →
        fault ≡ fault_in (unit_of (text_in tree.now) path.now text).body) }
    ensures steps { OnOk result ((text : List ℕ) → text_in tree.now path.now ≡ Some text →
        steps.new ≡ steps.old + bytes_of (text_in tree.now) (unit_of (text_in tree.now) path.now text).deps) }
    ensures later { steps.old ≤ steps.new }
{
    let Unit { deps: _, body } = build(alloc, tree, path, steps)?;
    match body {
        UnitBody::Good(_) => Ok(None),
        UnitBody::Bad(fault) => Ok(Some(fault)),
    }
}

// The files of a site that has this text alone.
fn alone(alloc: Global, path: &Path, text: &str) -> Result<Tree, AllocError>
    ensures { IfOk result (λ tree. tree ≡ alone path.now text.now) }
{
    let file = File {
        path: path.copy()?,
        text: FileText::copy_of(alloc, text)?,
        stamp: 1,
    };
    Ok(Tree::of_files(vec![in alloc; file]?).unwrap())
}
