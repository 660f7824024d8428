ghost use Rattle.std.specs.Prelude.{◌≡◌, ◌∷◌, [], ℕ, List, length, map, OnOk, IfOk};
ghost use Rattle.std.specs.List.{find};
ghost use Rattle.std.specs.Option.{option_map};
ghost use Rattle.std.specs.Str.{bytes_eq};
ghost use Rattle.page_directives.specs.Directive.{row_of};
ghost use Rattle.page_directives.specs.Faults.{in_order};
ghost use Rattle.page_directives.specs.Meet.{Before};
ghost use Rattle.unit_source.specs.Files.{text_in};
ghost use Rattle.unit_source.specs.Placed.{root_view};
ghost use Rattle.unit_words.specs.Beans.{bean_again, bean_at, bean_counted, bean_faults, bean_met};
ghost use Rattle.unit_words.specs.Beans.{bean_path, bean_text};
ghost use Rattle.unit_words.specs.Counts.{counted};
ghost use Rattle.unit_words.specs.State.{events_at, faulty, needed};
ghost use Rattle.unit_words.specs.Unit.{first_fault};
ghost use Rattle.unit_judges.specs.Made.{bean_made, class_made};
ghost use Rattle.unit_build.specs.ReadFound.{IsBeanMet, IsBeanRead, IsMet, IsNothing, state_in};

use crate::site::Site;
use crate::tag::Tag;
use page_directives::Faults;
use pg_text::{Names, PageFault, Path, Place, Text, TranslationFault};
use std::alloc::{AllocError, Global};
use std::sync::Arc;
use unit_judges::{Bean, Readings, bean_of, bean_path};
use unit_words::{Counted, Counts};

/// What reading a unit has found so far.
#[derive(Drop)]
pub(crate) struct Found<'t> {
    pub site: Site<'t>,
    /// The first fault that was met.
    pub fault: Option<PageFault>,
    /// The names of the files on which the unit depends.
    pub names: Names,
    /// The tag files that were called, in the order of their first calls.
    pub tags: Vec<Arc<Tag>>,
    /// The classes of beans that were read.
    pub beans: Vec<(Text, Bean)>,
    pub counts: Counts,
    /// The expressions that were read.
    pub readings: Readings,
}

// The fault with the least number at a place, where there is one.
#[tactic(auto, using(crate::proofs::FoundLemmas::first_at))]
fn fault_at(place: &Place, faults: Faults) -> Result<Option<PageFault>, AllocError>
    ensures { IfOk result (λ fault. fault ≡ first_fault (events_at place.now faults)) }
{
    match faults.least() {
        Some(fault) => Ok(Some(PageFault {
            fault,
            place: place.copy()?,
        })),
        None => Ok(None),
    }
}

// The bean of a class that was read.
fn bean_in<'b>(class: &str, beans: &'b [(Text, Bean)]) -> Option<&'b Bean>
    ensures { option_map (λ bean. bean_made bean.now) result ≡ row_of class.now (map class_made beans.now) }
{
    for (name, bean) in beans {
        if name.as_str() == class {
            return Some(bean);
        }
    }
    None
}

fn bean_faults(bean: &Bean) -> Faults
    ensures { result ≡ in_order (bean_faults (bean_made bean.now)) }
{
    match bean {
        Ok(_) => Faults::none(),
        Err(fault) => Faults::one(*fault),
    }
}

// The tag file at a path, where it was read.
pub(crate) fn tag_in<'g>(path: &str, tags: &'g [Arc<Tag>]) -> Option<&'g Arc<Tag>>
    ensures { option_map (λ tag. root_view tag.now.value) result
        ≡ find (λ root. bytes_eq root.path path.now) (map (λ tag. root_view tag.value) tags.now) }
{
    for tag in tags {
        if tag.root().path.as_str() == path {
            return Some(tag);
        }
    }
    None
}

impl<'t> Found<'t> {
    /// Nothing was found in a page of so many bytes.
    pub fn new(alloc: Global, site: Site<'t>, bytes: usize) -> Self
        ensures nothing { IsNothing site.entry bytes result }
    {
        Found {
            site,
            fault: None,
            names: Names::empty(alloc),
            tags: Vec::new(alloc),
            beans: Vec::new(alloc),
            counts: Counts::page(bytes),
            readings: Readings::new(alloc),
        }
    }

    /// Meets faults at a place.
    #[tactic(auto, using(crate::proofs::FoundLemmas::names_at))]
    pub fn meet(&mut self, place: &Place, faults: Faults) -> Result<(), AllocError>
        ensures { OnOk result (IsMet self.old self.new (events_at place.now faults)) }
    {
        if self.fault.is_none() {
            self.fault = fault_at(place, faults)?;
        }
        Ok(())
    }

    /// Meets the name of a file.
    pub fn need(&mut self, name: &Path) -> Result<(), AllocError>
        ensures { OnOk result (IsMet self.old self.new (needed (name.now ∷ []))) }
    {
        self.names.insert(name.copy()?)
    }

    /// Meets the break that ended the reading of a file: its fault is kept if it is the first.
    pub fn meet_break(&mut self, fault: &PageFault) -> Result<(), AllocError>
        ensures { OnOk result (IsMet self.old self.new (faulty fault.now ∷ [])) }
    {
        if self.fault.is_none() {
            self.fault = Some(fault.copy()?);
        }
        Ok(())
    }

    /// Meets the names of files.
    #[tactic(auto, using(crate::proofs::FoundLemmas::needed_more, crate::proofs::FoundLemmas::met_none))]
    pub fn need_all(&mut self, names: &[Path]) -> Result<(), AllocError>
        ensures { OnOk result (IsMet self.old self.new (needed names.now)) }
    {
        for name in names {
            self.need(name)?;
        }
        Ok(())
    }

    /// What a `jsp:useBean` of a class comes to: its faults.
    pub fn meet_bean(&mut self, alloc: Global, class: Option<&str>) -> Result<Faults, AllocError>
        ensures { IfOk result (λ faults. (before : Before) → IsBeanMet self.old self.new before faults
            (bean_met (text_in self.old.site) (option_map (λ class. class.now) class.entry)
            (state_in before self.old))) }
    {
        match class {
            Some(class) => self.meet_class(alloc, class),
            None => Ok(Faults::none()),
        }
    }

    fn meet_class(&mut self, alloc: Global, class: &str) -> Result<Faults, AllocError>
        ensures { IfOk result (λ faults. (before : Before) → IsBeanMet self.old self.new before faults
            (bean_at (text_in self.old.site) class.now (bean_path class.now) (state_in before self.old))) }
    {
        match bean_path(alloc, class)? {
            Some(path) => self.meet_bean_file(alloc, class, &path),
            None => Ok(Faults::one(TranslationFault::NoFile)),
        }
    }

    // What the file of a class comes to. Its name is noted also where it is absent.
    #[tactic(auto, using(crate::proofs::BeanLemmas::bean_after))]
    fn meet_bean_file(
        &mut self,
        alloc: Global,
        class: &str,
        path: &Path,
    ) -> Result<Faults, AllocError>
        ensures { IfOk result (λ faults. (before : Before) → IsBeanMet self.old self.new before faults
            (bean_text class.now path.now (text_in self.old.site path.now) (state_in before self.old))) }
    {
        self.need(path)?;
        match self.text(path)? {
            Some(text) => self.meet_bean_text(alloc, class, &text),
            None => Ok(Faults::one(TranslationFault::NoFile)),
        }
    }

    /// The text of the file at a path.
    pub fn text(&self, path: &Path) -> Result<Option<Text>, AllocError>
        ensures { IfOk result (λ text. text ≡ text_in self.now.site path.now) }
    {
        match self.site.text(path) {
            Some(text) => Ok(Some(text.copy()?)),
            None => Ok(None),
        }
    }

    // What the text of the file of a class comes to: it is read once.
    fn meet_bean_text(
        &mut self,
        alloc: Global,
        class: &str,
        text: &Text,
    ) -> Result<Faults, AllocError>
        ensures { IfOk result (λ faults. (before : Before) (path : List ℕ) →
            IsBeanRead self.old self.new before faults
            (bean_again class.now path text.now (row_of class.now (map class_made self.old.beans.items))
            (state_in before self.old))) }
    {
        match bean_in(class, &self.beans) {
            Some(bean) => Ok(bean_faults(bean)),
            None => self.read_bean(alloc, class, text),
        }
    }

    // Counts the file of a class, and reads it where it is within the limits.
    fn read_bean(&mut self, alloc: Global, class: &str, text: &Text) -> Result<Faults, AllocError>
        ensures { IfOk result (λ faults. (before : Before) (path : List ℕ) →
            IsBeanRead self.old self.new before faults
            (bean_counted class.now path text.now (counted (length text.now) self.old.counts)
            (state_in before self.old))) }
    {
        match self.counts.count(text.len()) {
            Counted::Within => {
                let bean = bean_of(alloc, text.as_bytes())?;
                let faults = bean_faults(&bean);
                self.beans.push((Text::copy_of(alloc, class)?, bean))?;
                Ok(faults)
            }
            Counted::Passes => Ok(Faults::one(TranslationFault::TooLarge)),
            Counted::Over => Ok(Faults::none()),
        }
    }
}
