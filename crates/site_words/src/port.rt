ghost use Rattle.std.specs.Prelude.{◌≡◌, ℕ, List, true, IfSome, IfOk};
ghost use Rattle.std.specs.Arc.{arc_value};
ghost use Rattle.site_words.specs.declared.words.Entry.{Entry};
ghost use Rattle.site_words.specs.declared.words.Opening.{Opening};
ghost use Rattle.site_words.specs.declared.words.Op.TheVariants as op;
ghost use Rattle.site_words.specs.State.{after};
ghost use Rattle.site_words.specs.Law.{May, own, run_of, Legal};
ghost use Rattle.site_words.specs.Calls.{Calls};
ghost use Rattle.site_words.specs.Answers.{of_published, of_begun, of_app, of_fresh, of_fetched};
ghost use Rattle.site_words.specs.Answers.{of_offered, of_snapped, IsFullOnRefused, StartsWith};
ghost use Rattle.site_words.specs.Answers.{Shows, IsNamed, ForRun, IsSamePort};
ghost use Rattle.site_words.specs.Opening.{is_sound};

use crate::compiled::Compiled;
use crate::words::{AppReply, AppStep, Refusal, Reply};
use edges::Acted;
use pg_text::{Names, Path, Text};
use pg_value::Attrs;
use source_tree::{Edits, Tree};
use std::alloc::AllocError;
use std::sync::Arc;

#[derive(Drop)]
pub struct Published {
    pub version: u64,
    pub dirty: Names,
}

/// A request that has begun: its tree, and the attributes of its session where it has one.
#[derive(Drop)]
pub struct Begun {
    pub request: u64,
    pub version: u64,
    pub session: Option<u64>,
    pub tree: Arc<Tree>,
    pub attrs: Attrs,
}

/// A session that was made, and its id.
#[derive(Drop)]
pub struct Fresh {
    pub session: u64,
    pub id: Text,
}

/// A picture of the site: its latest tree, the application's attributes and those of the session
/// where there is one.
#[derive(Drop)]
pub struct Snapped {
    pub version: u64,
    pub session: Option<u64>,
    pub tree: Arc<Tree>,
    pub app: Attrs,
    pub attrs: Attrs,
}

/// What a connection does to a site.
pub trait Port<P: Compiled> {
    /// What tells one shared site from another.
    type Home;

    /// Whose port it is.
    ghost home: { Self → Self.Home };

    ghost pass: { Self → ℕ };

    ghost opening: { Self → Opening };

    ghost seen: { Self → List Entry };

    /// What was seen is legal and the opening is sound, always.
    fn law(&self)
        ensures legal { Legal P.needs (opening self.now) (seen self.now) }
        ensures sound { is_sound (opening self.now) ≡ true };

    /// Publishes the edits.
    fn publish(&mut self, base: Option<u64>, edits: &Edits) -> Acted<Published, Refusal>
        requires may { May (opening self.old) (seen self.old) (pass self.old)
            (own (pass self.old) (seen self.old)) (op.Publish base edits.now) }
        ensures same { IsSamePort (pass self.old) (pass self.new) (opening self.old) (opening self.new)
            (home self.old) (home self.new) }
        ensures call { Calls P.needs (opening self.old) (pass self.old) (seen self.old) (seen self.new)
            (op.Publish base edits.now) (of_published result) };

    /// Begins a request at this moment. A busy session is waited for, at the same moment, so only a
    /// full journal refuses.
    fn begin(&mut self, cookie: &Text, moment: u64) -> Acted<Begun, Refusal>
        requires may { May (opening self.old) (seen self.old) (pass self.old)
            (own (pass self.old) (seen self.old)) (op.Begin cookie.now moment) }
        ensures same { IsSamePort (pass self.old) (pass self.new) (opening self.old) (opening self.new)
            (home self.old) (home self.new) }
        ensures call { Calls P.needs (opening self.old) (pass self.old) (seen self.old) (seen self.new)
            (op.Begin cookie.now moment) (of_begun result) }
        ensures full { IsFullOnRefused result }
        ensures start { StartsWith (after P.needs (opening self.old) (seen self.new)) result };

    /// Does a step on the application's attributes.
    fn app(&mut self, request: u64, step: AppStep) -> Result<AppReply, AllocError>
        requires may { May (opening self.old) (seen self.old) (pass self.old)
            (own (pass self.old) (seen self.old)) (op.App request step) }
        ensures same { IsSamePort (pass self.old) (pass self.new) (opening self.old) (opening self.new)
            (home self.old) (home self.new) }
        ensures call { Calls P.needs (opening self.old) (pass self.old) (seen self.old) (seen self.new)
            (op.App request step) (of_app result) };

    /// Gives the request a session.
    fn fresh(&mut self, request: u64) -> Result<Fresh, AllocError>
        requires may { May (opening self.old) (seen self.old) (pass self.old)
            (own (pass self.old) (seen self.old)) (op.Fresh request) }
        ensures same { IsSamePort (pass self.old) (pass self.new) (opening self.old) (opening self.new)
            (home self.old) (home self.new) }
        ensures call { Calls P.needs (opening self.old) (pass self.old) (seen self.old) (seen self.new)
            (op.Fresh request) (of_fresh result) }
        ensures named { IsNamed (opening self.old).seed result };

    /// What is kept for the path, where it is made from the request's tree too.
    fn fetch(&mut self, request: u64, path: &Path) -> Result<Option<Arc<P>>, AllocError>
        requires may { May (opening self.old) (seen self.old) (pass self.old)
            (own (pass self.old) (seen self.old)) (op.Fetch request path.now) }
        ensures same { IsSamePort (pass self.old) (pass self.new) (opening self.old) (opening self.new)
            (home self.old) (home self.new) }
        ensures call { Calls P.needs (opening self.old) (pass self.old) (seen self.old) (seen self.new)
            (op.Fetch request path.now) (of_fetched result) }
        ensures made { IfOk result (λ found. IfSome found (λ made. ForRun (opening self.old) (seen self.old)
            (run_of (own (pass self.old) (seen self.old))) (λ tree. P.made (arc_value made) tree path.now))) };

    /// Offers what was made from the request's tree.
    fn offer(&mut self, request: u64, path: &Path, made: Arc<P>) -> Result<bool, AllocError>
        requires may { May (opening self.old) (seen self.old) (pass self.old)
            (own (pass self.old) (seen self.old)) (op.Offer request path.now) }
        requires made { ForRun (opening self.old) (seen self.old) (run_of (own (pass self.old) (seen self.old)))
            (λ tree. P.made (arc_value made) tree path.now) }
        ensures same { IsSamePort (pass self.old) (pass self.new) (opening self.old) (opening self.new)
            (home self.old) (home self.new) }
        ensures call { Calls P.needs (opening self.old) (pass self.old) (seen self.old) (seen self.new)
            (op.Offer request path.now) (of_offered result) };

    /// Ends the request. It takes no memory and is never refused.
    fn end(&mut self, request: u64, attrs: Attrs)
        requires may { May (opening self.old) (seen self.old) (pass self.old)
            (own (pass self.old) (seen self.old)) (op.End request attrs) }
        ensures same { IsSamePort (pass self.old) (pass self.new) (opening self.old) (opening self.new)
            (home self.old) (home self.new) }
        ensures call { Calls P.needs (opening self.old) (pass self.old) (seen self.old) (seen self.new)
            (op.End request attrs) (Acted.Did Reply.Ended) };

    /// Ends the request, whose session keeps the attributes that it had. It takes no memory and is
    /// never refused.
    fn abandon(&mut self, request: u64)
        requires may { May (opening self.old) (seen self.old) (pass self.old)
            (own (pass self.old) (seen self.old)) (op.Abandon request) }
        ensures same { IsSamePort (pass self.old) (pass self.new) (opening self.old) (opening self.new)
            (home self.old) (home self.new) }
        ensures call { Calls P.needs (opening self.old) (pass self.old) (seen self.old) (seen self.new)
            (op.Abandon request) (Acted.Did Reply.Dropped) };

    /// A picture of the site, which changes its weight alone.
    fn snapshot(&mut self, cookie: &Text) -> Acted<Snapped, Refusal>
        requires may { May (opening self.old) (seen self.old) (pass self.old)
            (own (pass self.old) (seen self.old)) (op.Snapshot cookie.now) }
        ensures same { IsSamePort (pass self.old) (pass self.new) (opening self.old) (opening self.new)
            (home self.old) (home self.new) }
        ensures call { Calls P.needs (opening self.old) (pass self.old) (seen self.old) (seen self.new)
            (op.Snapshot cookie.now) (of_snapped result) }
        ensures shows { Shows (after P.needs (opening self.old) (seen self.new)) result };
}
