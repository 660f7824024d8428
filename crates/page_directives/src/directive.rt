ghost use Rattle.std.specs.Prelude.{◌≡◌, ◌≤◌, length, IfOk};
ghost use Rattle.std.specs.Option.{option_map};

use crate::target::{Target, target_in};
use page_pieces::Attributes;
use pg_text::Place;
use std::alloc::{AllocError, Global};
use std::marker::Model;

/// A directive as it was read, borrowed from the page that it stands in.
#[derive(Drop)]
pub struct Directive<'a> {
    name: &'a str,
    attributes: &'a Attributes,
    place: &'a Place,
    // What its attributes name as a target.
    target: Option<Target>,
}

impl<'a> Model for Directive<'a> {
    ghost use Rattle.std.specs.Prelude.{◌≡◌};
    ghost use Rattle.page_directives.specs.Directive.{Directive as Seen};
    ghost use Rattle.page_directives.specs.Taglibs.{target_in};

    ghost Value = { Seen };

    ghost view = { λ d. record { name = d.name.now; attributes = d.attributes.now; place = d.place.now } };

    ghost invariant = { λ d. d.target ≡ target_in d.attributes.now };
}

impl<'a> Directive<'a> {
    ghost use Rattle.page_directives.specs.Directive.{before_in, is_at_same, is_named};
    ghost use Rattle.page_directives.specs.Taglibs.{prefix_in, target_in};

    /// The directive with these parts. What its attributes name as a target is found here, once.
    pub fn new(
        alloc: Global,
        name: &'a str,
        attributes: &'a Attributes,
        place: &'a Place,
    ) -> Result<Self, AllocError>
        ensures { IfOk result (λ d. d ≡ record { name = name.now; attributes = attributes.now; place = place.now }) }
    {
        Ok(Directive {
            name,
            attributes,
            place,
            target: target_in(alloc, attributes.as_slice())?,
        })
    }

    pub fn name(&self) -> &'a str
        ensures { result.now ≡ self.now.name }
    {
        self.name
    }

    pub fn attributes(&self) -> &'a Attributes
        ensures { result.now ≡ self.now.attributes }
    {
        self.attributes
    }

    pub fn place(&self) -> &'a Place
        ensures { result.now ≡ self.now.place }
    {
        self.place
    }

    pub fn is_named(&self, name: &str) -> bool
        ensures { result ≡ is_named name.now self.now }
    {
        self.name == name
    }

    // Whether another directive stands at the same byte of the same file.
    pub(crate) fn is_at_same(&self, other: &Directive) -> bool
        ensures { result ≡ is_at_same self.now other.now }
    {
        other.place.byte == self.place.byte && other.place.file.as_str() == self.place.file.as_str()
    }

    // How many directives of a reading stand before this one: all of them where it doesn't stand
    // there.
    pub(crate) fn before_in(&self, reading: &[Directive]) -> usize
        ensures value { result ≡ before_in reading.now self.now }
        ensures within { result ≤ length reading.now }
    {
        reading
            .iter()
            .take_while(|other| !self.is_at_same(other))
            .count()
    }

    /// The prefix, where this is a taglib directive.
    pub fn prefix(&self) -> Option<&'a str>
        ensures { option_map (λ text. text.now) result ≡ prefix_in self.now }
    {
        if self.is_named("taglib") {
            self.attributes.plain("prefix")
        } else {
            None
        }
    }

    // The target that one of `uri` and `tagdir` names.
    pub(crate) fn target(&self) -> Option<&Target>
        ensures { option_map (λ target. target.now) result ≡ target_in self.now.attributes }
    {
        self.target.as_ref()
    }
}
