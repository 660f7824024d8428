use crate::finding::find;
use crate::telling::{paged, tell};
use compiled_pages::Made;
use edges::{Ledger, Steps};
use pg_text::Path;
use run_world::Program;
use site_words::{AppPort, AppReply, AppStep, Fresh, Paged, Port, is_page};
use source_tree::Tree;
use std::alloc::{AllocError, Global};
use std::sync::Arc;

/// What a running page asks of its request, over the port on which the request was begun.
#[derive(Drop)]
pub struct RequestPort<'a, Q, L: Ledger> {
    /// The allocator for the pages that are made.
    pub alloc: Global,
    /// The port of the connection.
    pub port: &'a mut Q,
    /// The bytes that were read to make pages.
    pub steps: &'a mut Steps<L>,
    /// The tree that was the latest when the request began.
    pub tree: &'a Tree,
    /// The number of the request on its port.
    pub request: u64,
    /// Whether memory ever ran out while a page was found; from then on no step is done.
    pub starved: bool,
    /// The page that was found last, with its path.
    pub last: Option<(Path, Arc<Made>)>,
}

impl<'a, Q, L: Ledger> RequestPort<'a, Q, L> {
    ghost use Rattle.std.specs.Prelude.{IfOk};
    ghost use Rattle.compiled_pages.specs.Made.{IsFaultOf, IsProgramOf};
    ghost use Rattle.request_port.specs.Leading.{IsLast};
    ghost use Rattle.site_words.specs.Running.{IsPaged};

    /// What stands at a path that was looked at last, without another Fetch. A page that wasn't
    /// found last is answered as if memory ran out.
    pub fn again(&self, path: &Path) -> Result<Paged<Program>, AllocError>
        requires last { IsLast self.now.tree.now self.now.last }
        ensures paged { IfOk result (λ found. IsPaged IsProgramOf IsFaultOf self.now.tree.now path.now found) }
    {
        let Some(file) = self.tree.get(path) else {
            return Ok(Paged::Absent);
        };
        if !is_page(path) {
            return Ok(Paged::Plain(file.text.copy()?));
        }
        let Some(found) = &self.last else {
            return Err(AllocError);
        };
        if found.0.as_bytes() != path.as_bytes() {
            return Err(AllocError);
        }
        paged(&found.1.body)
    }
}

impl<'a, Q: Port<Made>, L: Ledger> AppPort<Program> for RequestPort<'a, Q, L> {
    ghost use Rattle.compiled_pages.specs.Made.{IsFaultOf, IsProgramOf};
    ghost use Rattle.compiled_pages.specs.Pages.{needs_at};
    ghost use Rattle.request_port.specs.Asked.{asking_of};
    ghost use Rattle.request_port.specs.Leading.{Leads};

    ghost made = { λ program tree path. IsProgramOf program tree path };

    ghost faulty = { λ fault tree path. IsFaultOf fault tree path };

    ghost tree = { λ p. p.tree.now };

    ghost asking = { λ p. asking_of (Q.opening p.port.now) (Q.pass p.port.now) (Q.seen p.port.now) p.request
        p.tree.now };

    ghost leads = { λ old new. Leads needs_at Q.pass Q.opening Q.home Q.seen old new };

    fn app(&mut self, step: AppStep) -> Result<AppReply, AllocError> {
        self.port.law();
        if self.starved {
            return Err(AllocError);
        }
        self.port.app(self.request, step)
    }

    fn fresh(&mut self) -> Result<Fresh, AllocError> {
        self.port.law();
        if self.starved {
            return Err(AllocError);
        }
        self.port.fresh(self.request)
    }

    fn page(&mut self, path: &Path) -> Result<Paged<Program>, AllocError> {
        self.port.law();
        let Some(file) = self.tree.get(path) else {
            return Ok(Paged::Absent);
        };
        if !is_page(path) {
            return Ok(Paged::Plain(file.text.copy()?));
        }
        if self.starved {
            return Err(AllocError);
        }
        // As the tree has it, so that the entries of the site share its text.
        let shared = &file.path;
        match find(
            self.alloc,
            self.port,
            self.steps,
            self.tree,
            self.request,
            shared,
        ) {
            Ok(made) => tell(&mut self.last, path, made),
            Err(AllocError) => {
                self.starved = true;
                Err(AllocError)
            }
        }
    }

    ghost use Rattle.request_port.specs.LeadingLaws.{leads_here, leads_on};

    ghost leads_here = { λ port. leads_here port };

    ghost leads_on = { λ first second third before behind. leads_on first second third before behind };
}
