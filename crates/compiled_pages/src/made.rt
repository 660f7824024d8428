use pg_text::PageFault;
use run_world::Program;
use site_words::Compiled;
use source_tree::Stamps;
use std::sync::Arc;

/// The program of a page, or the fault of one that has a fault.
#[derive(Drop)]
pub enum MadeBody {
    Program(Arc<Program>),
    Fault(PageFault),
}

/// What is kept for a path: what it is made of, and the names of the files on which that depends,
/// absent ones too, each with its stamp.
#[derive(Drop)]
pub struct Made {
    pub deps: Stamps,
    pub body: MadeBody,
}

impl Compiled for Made {
    ghost use Rattle.compiled_pages.specs.MadeLaws.{made_stands_on, needs_stand};
    ghost use Rattle.compiled_pages.specs.Made.{IsMade};
    ghost use Rattle.compiled_pages.specs.Pages.{needs_at};

    ghost needs = { needs_at };

    ghost made = { λ value tree path. IsMade value tree path };

    ghost needed = { λ value. value.deps };

    fn stamps(&self) -> &Stamps {
        &self.deps
    }

    ghost keeps = { λ value tree path made. made.deps };

    ghost stand = { λ tree path. needs_stand tree path };

    ghost agreeing = { λ value a b path one agree made. made_stands_on value a b path one agree made };
}
