ghost use Rattle.std.specs.Prelude.{◌≡◌};
ghost use Rattle.source_tree.specs.Limits.{IsWithinLimits};

use crate::asked::Asked;
use crate::making::paged;
use crate::prepared::{Prepared, reply_at, session_at};
use pg_text::Path;
use run_world::Program;
use site_words::{AppPort, AppReply, AppStep, Fresh, Paged};
use source_tree::Tree;
use std::alloc::{AllocError, Global};

/// A site of the files of a tree that one request asks. It answers the steps by what is prepared,
/// in order, notes them, and answers that memory ran out where what is prepared next is no answer
/// to a step.
#[derive(Drop)]
pub struct TreeSite<'a> {
    alloc: Global,
    tree: &'a Tree,
    answers: Vec<Prepared>,
    asked: Vec<Asked>,
    used: usize,
    has_session: bool,
    ghost limits: { IsWithinLimits tree.now },
}

impl<'a> TreeSite<'a> {
    ghost use Rattle.std.specs.Prelude.{[]};
    ghost use Rattle.tree_site.specs.Asked.{asking_by};
    ghost use Rattle.tree_site.specs.Site.{asking_of, tree_of};

    /// A site of which nothing was asked, with a session or without one.
    pub fn new(alloc: Global, tree: &'a Tree, answers: Vec<Prepared>, has_session: bool) -> Self
        requires limits { IsWithinLimits tree.now }
        ensures asked { asking_of result ≡ asking_by [] [] has_session }
        ensures tree { tree_of result ≡ tree.now }
    {
        TreeSite {
            alloc,
            tree,
            answers,
            asked: Vec::new(alloc),
            used: 0,
            has_session,
        }
    }

    /// What was asked, in order.
    pub fn into_asked(self) -> Vec<Asked> {
        self.asked
    }
}

impl<'a> AppPort<Program> for TreeSite<'a> {
    ghost use Rattle.std.specs.Prelude.{⊤};
    ghost use Rattle.compiled_pages.specs.Made.{IsFaultOf, IsProgramOf};
    ghost use Rattle.tree_site.specs.Site.{asking_of, tree_of};

    ghost made = { λ program tree path. IsProgramOf program tree path };

    ghost faulty = { λ fault tree path. IsFaultOf fault tree path };

    ghost tree = { λ site. tree_of site };

    ghost asking = { λ site. asking_of site };

    ghost leads = { λ first last. ⊤ };

    fn app(&mut self, step: AppStep) -> Result<AppReply, AllocError> {
        let reply = reply_at(&self.answers, self.used, &step)?;
        self.asked.push(Asked::App(step))?;
        self.used += 1;
        Ok(reply)
    }

    fn fresh(&mut self) -> Result<Fresh, AllocError> {
        let fresh = session_at(&self.answers, self.used)?;
        self.asked.push(Asked::Fresh)?;
        self.used += 1;
        self.has_session = true;
        Ok(fresh)
    }

    fn page(&mut self, path: &Path) -> Result<Paged<Program>, AllocError> {
        let found = paged(self.alloc, self.tree, path)?;
        if matches!(&found, Paged::Page(_) | Paged::Bad(_)) {
            self.asked.push(Asked::Fetch(path.copy()?))?;
        }
        Ok(found)
    }

    ghost leads_here = { λ port. tt };

    ghost leads_on = { λ first second third before behind. tt };
}
