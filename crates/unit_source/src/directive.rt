ghost use Rattle.std.specs.Prelude.{◌≡◌, IfOk};

use page_directives::Directive;
use page_pieces::Attributes;
use pg_text::{Place, Text};
use std::alloc::{AllocError, Global};
use std::marker::Model;
use std::sync::Arc;

/// A directive as it was read, shared by its copies.
#[derive(Drop)]
pub struct WrittenDirective {
    written: Arc<Written>,
}

#[derive(Drop)]
struct Written {
    name: Text,
    attributes: Attributes,
    place: Place,
}

impl Model for WrittenDirective {
    ghost use Rattle.page_directives.specs.Directive.{Directive};

    ghost Value = { Directive };

    ghost view = { λ d. record { name = d.written.value.name; attributes = d.written.value.attributes; place = d.written.value.place } };
}

impl WrittenDirective {
    // A directive as it was read, put where its copies share it.
    pub(crate) fn new(
        alloc: Global,
        name: Text,
        attributes: Attributes,
        place: Place,
    ) -> Result<Self, AllocError>
        ensures { IfOk result (λ d. d ≡ record { name = name; attributes = attributes; place = place }) }
    {
        Ok(WrittenDirective {
            written: Arc::new(
                alloc,
                Written {
                    name,
                    attributes,
                    place,
                },
            )?,
        })
    }

    /// An equal directive, which shares what was read.
    pub fn copy(&self) -> Result<Self, AllocError>
        ensures { IfOk result (λ copy. copy ≡ self.now) }
    {
        Ok(WrittenDirective {
            written: Arc::try_clone(&self.written)?,
        })
    }

    pub fn name(&self) -> &str
        ensures { result.now ≡ self.now.name }
    {
        self.written.name.as_str()
    }

    pub fn attributes(&self) -> &Attributes
        ensures { result.now ≡ self.now.attributes }
    {
        &self.written.attributes
    }

    pub fn place(&self) -> &Place
        ensures { result.now ≡ self.now.place }
    {
        &self.written.place
    }

    /// The directive as its faults are asked for.
    pub fn borrowed(&self, alloc: Global) -> Result<Directive<'_>, AllocError>
        ensures { IfOk result (λ d. d ≡ self.now) }
    {
        Directive::new(alloc, self.name(), self.attributes(), self.place())
    }
}
