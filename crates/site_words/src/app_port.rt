ghost use Rattle.std.specs.Prelude.{◌≡◌, ◌+◌, ◌≤◌, ℕ, List, true, false, IfOk};
ghost use Rattle.pg_text.specs.declared.place.PageFault.{PageFault as Fault};
ghost use Rattle.source_tree.specs.Edits.{file_at};
ghost use Rattle.source_tree.specs.declared.file.File.{File};
ghost use Rattle.site_words.specs.Fits.{fits_step};
ghost use Rattle.site_words.specs.Running.{Asking, IsGivenSession, IsPaged, IsTold, Looks};
ghost use Rattle.site_words.specs.Running.{page_claim};
ghost use Rattle.site_words.specs.Weights.{end_weight, step_weight, value_limit};

use crate::port::Fresh;
use crate::words::{AppReply, AppStep};
use pg_text::{PageFault, Path, Text};
use std::alloc::AllocError;
use std::sync::Arc;

/// What stands at a path: no file, the text of a file that is no page, the fault of a page, or the
/// page.
#[derive(Drop)]
pub enum Paged<P> {
    Absent,
    Plain(Text),
    Bad(PageFault),
    Page(Arc<P>),
}

/// What a running page asks of its request: steps on the application's attributes, a session, and
/// other pages.
pub trait AppPort<P> {
    /// What a page of a tree and a path is.
    ghost made: { P → List File → List ℕ → Type 0 };

    /// The fault by which a path of a tree is no page.
    ghost faulty: { Fault → List File → List ℕ → Type 0 };

    /// The request's tree.
    ghost tree: { Self → List File };

    ghost asking: { Self → Asking };

    /// What is asked leads from one to the other.
    ghost leads: { Self → Self → Type 0 };

    /// Does a step on the application's attributes.
    fn app(&mut self, step: AppStep) -> Result<AppReply, AllocError>
        requires fits { fits_step step ≡ true }
        requires room { 64 + step_weight step + value_limit + end_weight ≤ (asking self.old).left }
        ensures told { IsTold (asking self.old) (asking self.new) step result }
        ensures tree { tree self.new ≡ tree self.old }
        ensures leads { leads self.old self.new };

    /// Gives the request a session.
    fn fresh(&mut self) -> Result<Fresh, AllocError>
        requires none { (asking self.old).has_session ≡ false }
        requires room { 64 + end_weight ≤ (asking self.old).left }
        ensures given { IsGivenSession (asking self.old) (asking self.new) result }
        ensures tree { tree self.new ≡ tree self.old }
        ensures leads { leads self.old self.new };

    /// What stands at the path in the request's tree.
    fn page(&mut self, path: &Path) -> Result<Paged<P>, AllocError>
        requires room { page_claim path.now + end_weight ≤ (asking self.old).left }
        ensures paged { IfOk result (λ paged. IsPaged made faulty (tree self.old) path.now paged) }
        ensures looked { Looks (asking self.old) (asking self.new) path.now (file_at path.now (tree self.old)) result }
        ensures tree { tree self.new ≡ tree self.old }
        ensures leads { leads self.old self.new };

    /// Where nothing is asked nothing changes.
    ghost leads_here: { (port : Self) → leads port port };

    /// What is asked one after the other leads from the first to the last.
    ghost leads_on: { (first second third : Self) → leads first second → leads second third → leads first third };
}
