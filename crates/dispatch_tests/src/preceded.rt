// A port that does what another does, and something of its own before some of the calls.
ghost use Rattle.std.specs.Arc.{arc_value};
ghost use Rattle.compiled_pages.specs.Made.{IsMade};
ghost use Rattle.compiled_pages.specs.Pages.{needs_at};
ghost use Rattle.site_words.specs.Answers.{ForRun, IsSamePort, of_offered};
ghost use Rattle.site_words.specs.Calls.{Calls};
ghost use Rattle.site_words.specs.Law.{May, own, run_of};
ghost use Rattle.site_words.specs.declared.words.Op.TheVariants as op;

use compiled_pages::Made;
use pg_text::{Path, Text};
use pg_value::Attrs;
use site_words::{Acted, AppReply, AppStep, Begun, Fresh, Port, Published, Refusal, Snapped};
use source_tree::Edits;
use std::alloc::AllocError;
use std::sync::Arc;

/// What is done before calls of a port.
pub trait Before {
    /// Before a step on the application's attributes.
    fn step(&mut self);

    /// Before a page is fetched.
    fn fetch(&mut self);
}

/// A port, and what is done before its calls.
#[derive(Drop)]
pub struct Preceded<P, B> {
    pub port: P,
    pub before: B,
}

impl<P: Port<Made>, B: Before> Port<Made> for Preceded<P, B> {
    type Home = P::Home;

    ghost home = { λ w. P.home w.port };

    ghost pass = { λ w. P.pass w.port };

    ghost opening = { λ w. P.opening w.port };

    ghost seen = { λ w. P.seen w.port };

    fn law(&self) {
        self.port.law();
    }

    fn publish(&mut self, base: Option<u64>, edits: &Edits) -> Acted<Published, Refusal> {
        self.port.publish(base, edits)
    }

    fn begin(&mut self, cookie: &Text, moment: u64) -> Acted<Begun, Refusal> {
        self.port.begin(cookie, moment)
    }

    fn app(&mut self, request: u64, step: AppStep) -> Result<AppReply, AllocError> {
        self.before.step();
        self.port.app(request, step)
    }

    fn fresh(&mut self, request: u64) -> Result<Fresh, AllocError> {
        self.port.fresh(request)
    }

    fn fetch(&mut self, request: u64, path: &Path) -> Result<Option<Arc<Made>>, AllocError> {
        self.before.fetch();
        self.port.fetch(request, path)
    }

    fn offer(&mut self, request: u64, path: &Path, made: Arc<Made>) -> Result<bool, AllocError>
        requires may { May (P.opening self.old.port) (P.seen self.old.port) (P.pass self.old.port)
            (own (P.pass self.old.port) (P.seen self.old.port)) (op.Offer request path.now) }
        requires made { ForRun (P.opening self.old.port) (P.seen self.old.port)
            (run_of (own (P.pass self.old.port) (P.seen self.old.port)))
            (λ tree. IsMade (arc_value made) tree path.now) }
        ensures same { IsSamePort (P.pass self.old.port) (P.pass self.new.port) (P.opening self.old.port)
            (P.opening self.new.port) (P.home self.old.port) (P.home self.new.port) }
        ensures call { Calls needs_at (P.opening self.old.port) (P.pass self.old.port) (P.seen self.old.port)
            (P.seen self.new.port) (op.Offer request path.now) (of_offered result) }
    {
        self.port.offer(request, path, made)
    }

    fn end(&mut self, request: u64, attrs: Attrs) {
        self.port.end(request, attrs);
    }

    fn abandon(&mut self, request: u64) {
        self.port.abandon(request);
    }

    fn snapshot(&mut self, cookie: &Text) -> Acted<Snapped, Refusal> {
        self.port.snapshot(cookie)
    }
}
