ghost use Rattle.std.specs.Prelude.{◌≡◌, ◌∷◌, ◌++◌, [], IfOk, OnOk};
ghost use Rattle.page_directives.specs.Faults.{in_order};
ghost use Rattle.page_directives.specs.Meet.{nothing_before};
ghost use Rattle.page_directives.specs.Taglibs.{prefixes_in_text};
ghost use Rattle.unit_source.specs.First.{directive};
ghost use Rattle.unit_source.specs.Placed.{root_view};
ghost use Rattle.unit_words.specs.Directives.{directive_faults, tag_file_faults};
ghost use Rattle.unit_build.specs.ReadWalk.{IsOwn};

use crate::decided::Decided;
use page_directives::{Before, Directive, Faults, Where};
use page_pieces::Attributes;
use pg_text::Place;
use std::alloc::{AllocError, Global};
use std::mem::replace;
use tag_decl::DeclaredBefore;
use unit_source::Root;

/// A page or a tag file that is being read, what stood before in it, and of that the directives of
/// the file itself.
#[derive(Drop)]
pub(crate) struct Course<'r> {
    pub root: Decided<'r>,
    pub before: Before<'r>,
    pub own: DeclaredBefore<'r>,
}

impl<'r> Course<'r> {
    // Nothing of it was read.
    fn new(alloc: Global, root: &'r Root) -> Result<Self, AllocError>
        ensures root { IfOk result (λ course. course.root ≡ root.now) }
        ensures before { IfOk result (λ course. course.before ≡ nothing_before) }
        ensures own { IfOk result (λ course. IsOwn course) }
    {
        Ok(Course {
            root: Decided::new(alloc, root)?,
            before: Before::new(alloc),
            own: DeclaredBefore::new(alloc),
        })
    }

    /// Nothing of it was read. It is in the heap, since it stays while the tag files that its file
    /// calls are read, up to 255 in one another.
    #[inline(never)]
    pub fn begun(alloc: Global, root: &'r Root) -> Result<Box<Self>, AllocError>
        ensures root { IfOk result (λ course. course.value.root ≡ root.now) }
        ensures before { IfOk result (λ course. course.value.before ≡ nothing_before) }
        ensures own { IfOk result (λ course. IsOwn course.value) }
    {
        let course = Course::new(alloc, root)?;
        Ok(Box::new(alloc, course)?)
    }

    // The faults of what a directive declares in a tag file itself.
    fn declaring(&self, stands: Where, directive: &Directive) -> Faults
        requires { IsOwn self.now }
        ensures { result ≡ in_order (tag_file_faults stands (root_view self.now.root) self.now.before directive.now) }
    {
        match stands {
            Where::TagFile => self.root.declaring_faults(&self.own, directive),
            _ => Faults::none(),
        }
    }

    /// Meets a directive: its faults, and from now on it stands before.
    pub fn meet(
        &mut self,
        alloc: Global,
        name: &'r str,
        attributes: &'r Attributes,
        place: &'r Place,
    ) -> Result<Faults, AllocError>
        requires { IsOwn self.now }
        ensures faults { IfOk result (λ faults. faults
            ≡ in_order (directive_faults (root_view self.old.root) self.old.before
            (directive name.now attributes.now place.now))) }
        ensures root { OnOk result (self.new.root ≡ self.old.root) }
        ensures before { OnOk result (self.new.before
            ≡ record {
              directives = self.old.before.directives ++ directive name.now attributes.now place.now
                  ∷ [];
              prefixes = self.old.before.prefixes;
            }) }
        ensures own { OnOk result (IsOwn self.new) }
    {
        let directive = Directive::new(alloc, name, attributes, place)?;
        let stands = self.root.where_stands(&directive);
        let declaring = self.declaring(stands, &directive);
        if self.root.has_own(place) {
            keep(
                alloc,
                &mut self.own,
                Directive::new(alloc, name, attributes, place)?,
            )?;
        }
        let faults = self.root.meet(stands, &mut self.before, directive)?;
        Ok(faults.and(declaring))
    }

    /// Meets template text, and notes the prefixes of the tags in it: what registers one of them
    /// from now on comes too late.
    pub fn meet_text(&mut self, text: &str) -> Result<(), AllocError>
        requires { IsOwn self.now }
        ensures root { OnOk result (self.new.root ≡ self.old.root) }
        ensures before { OnOk result (self.new.before
            ≡ record {
              directives = self.old.before.directives;
              prefixes = self.old.before.prefixes
                  ++ prefixes_in_text text.now;
            }) }
        ensures own { OnOk result (IsOwn self.new) }
    {
        self.before.meet_text(text)
    }
}

/// Lets go of a course. A function of its own, so that what this takes isn't on the stack while the
/// file is read.
#[inline(never)]
pub(crate) fn end(course: Box<Course>) {
    drop(course);
}

// Keeps a directive behind these; after an error none is kept.
fn keep<'r>(
    alloc: Global,
    own: &mut DeclaredBefore<'r>,
    directive: Directive<'r>,
) -> Result<(), AllocError>
    ensures { OnOk result (own.new ≡ own.old ++ directive.entry ∷ []) }
{
    let before = replace(own, DeclaredBefore::new(alloc));
    let _none = replace(own, before.behind(directive)?);
    Ok(())
}
