ghost use Rattle.std.specs.Prelude.{◌≡◌, ◌++◌, ◌∷◌, [], IfOk, OnErr, OnOk};
ghost use Rattle.std.specs.Option.{option_map};
ghost use Rattle.page_directives.specs.Faults.{in_order};
ghost use Rattle.page_directives.specs.Meet.{giving_faults, include_faults, may_give, met_faults};
ghost use Rattle.page_directives.specs.Meet.{nothing_before, other_faults};
ghost use Rattle.page_directives.specs.Settings.{given, giver};
ghost use Rattle.page_directives.specs.Taglibs.{prefix_of_tag, prefixes_in_text, target_of};
ghost use Rattle.page_pieces.specs.Marks.{tag_name};
ghost use Rattle.page_pieces.specs.Settings.{contains_text, value_of};

use crate::checks::attribute_faults;
use crate::directive::Directive;
use crate::faults::Faults;
use crate::first_reading::FirstReading;
use crate::giving::{setting_faults, value_given};
use crate::known::{Known, known_behind};
use crate::registering::{taglib_faults, target_of};
use crate::tables::{giver, include_table};
use crate::target::Target;
use page_pieces::{Attributes, Prefixes, has_name, tag_name};
use pg_text::TranslationFault;
use std::alloc::{AllocError, Global};
use std::marker::Model;

/// Where a directive stands.
#[derive(Clone, Copy, Debug, PartialEq, Eq)]
pub enum Where {
    /// In a page, or in a file that a page includes.
    Page,
    /// In a tag file itself.
    TagFile,
    /// In a file that a tag file includes.
    TagFilePart,
}

/// What stood before in a page or a tag file with its includes: the directives, and the prefixes in
/// template text.
#[derive(Drop)]
pub struct Before<'a> {
    directives: Vec<Directive<'a>>,
    prefixes: Prefixes,
    // What the directives said first. Once memory ran out it isn't there, and the directives are
    // asked one after the other.
    known: Option<Known<'a>>,
}

impl<'a> Model for Before<'a> {
    ghost use Rattle.std.specs.Option.{IfSome};
    ghost use Rattle.page_directives.specs.Meet.{Before as Seen};
    ghost use Rattle.page_directives.specs.ReadKnown.{IsKnown};

    ghost Value = { Seen };

    ghost view = { λ b. record { directives = b.directives.items; prefixes = b.prefixes } };

    ghost invariant = { λ b. IfSome b.known (λ known. IsKnown known b.directives.items) };
}

impl<'a> Before<'a> {
    /// Nothing.
    pub fn new(alloc: Global) -> Self
        ensures { result ≡ nothing_before }
    {
        Before {
            directives: Vec::new(alloc),
            prefixes: Prefixes::new(alloc),
            known: Some(Known::new(alloc)),
        }
    }

    pub fn directives(&self) -> &[Directive<'a>]
        ensures { result.now ≡ self.now.directives }
    {
        &self.directives
    }

    /// Whether a prefix stood in template text.
    pub(crate) fn has_prefix(&self, prefix: &str) -> bool
        ensures { result ≡ contains_text prefix.now self.now.prefixes }
    {
        self.prefixes.contains(prefix)
    }

    // The text of the first attribute of that name: among those of the directives that give
    // settings, and behind them among `own`.
    pub(crate) fn value<'b>(
        &'b self,
        in_tag: bool,
        own: &'b Attributes,
        name: &str,
    ) -> Option<&'b str>
        ensures { option_map (λ text. text.now) result
            ≡ value_of name.now (given (giver in_tag) self.now.directives ++ own.now) }
    {
        match &self.known {
            Some(known) => known.value(in_tag, own, name),
            None => value_given(giver(in_tag), &self.directives, own, name),
        }
    }

    /// The faults of a directive that stands in such a file. `first` is the first reading of the
    /// page or tag file.
    #[tactic(auto, unfolding(crate::specs::Meet::met_faults))]
    pub fn faults(&self, stands: Where, first: &FirstReading, directive: &Directive<'a>) -> Faults
        ensures { result ≡ in_order (met_faults stands first.now self.now directive.now) }
    {
        match directive.name() {
            "include" => include_faults(directive),
            "taglib" => taglib_faults(self, directive),
            "page" => giving_faults(false, stands, first, self, directive),
            "tag" => giving_faults(true, stands, first, self, directive),
            _ => other_faults(stands, directive),
        }
    }

    /// Adds a directive to those that stood before.
    pub fn push(&mut self, directive: Directive<'a>) -> Result<(), AllocError>
        ensures before { OnOk result (self.new
            ≡ record self.old { directives = self.old.directives ++ directive.entry ∷ [] }) }
        ensures err { OnErr result (self.new ≡ self.old) }
    {
        let known = known_behind(self.known.take(), &directive)?;
        self.directives.push(directive)?;
        self.known = known;
        Ok(())
    }

    /// The faults of a directive, which is then added to those that stood before.
    pub fn meet(
        &mut self,
        stands: Where,
        first: &FirstReading,
        directive: Directive<'a>,
    ) -> Result<Faults, AllocError>
        ensures faults { IfOk result (λ faults. faults
            ≡ in_order (met_faults stands first.now self.old directive.entry)) }
        ensures before { OnOk result (self.new
            ≡ record self.old { directives = self.old.directives ++ directive.entry ∷ [] }) }
        ensures err { OnErr result (self.new ≡ self.old) }
    {
        let faults = self.faults(stands, first, &directive);
        self.push(directive)?;
        Ok(faults)
    }

    /// Adds the prefixes that stand in template text behind a `<`, before a colon and a name. Where
    /// memory runs out some of them are added.
    pub fn meet_text(&mut self, text: &str) -> Result<(), AllocError>
        ensures { OnOk result (self.new ≡ record self.old {
          prefixes = self.old.prefixes
              ++ prefixes_in_text text.now;
        }) }
    {
        push_prefixes(&mut self.prefixes, text)
    }

    /// What a prefix stands for: the first target that was registered for it.
    pub fn target(&self, prefix: &str) -> Option<&Target>
        ensures { option_map (λ target. target.now) result ≡ target_of prefix.now self.now.directives }
    {
        match &self.known {
            Some(known) => known.target(prefix),
            None => target_of(prefix, &self.directives),
        }
    }
}

// Adds the prefixes that stand in a text before a colon and a name, behind a `<`.
fn push_prefixes(prefixes: &mut Prefixes, text: &str) -> Result<(), AllocError>
    ensures { OnOk result (prefixes.new ≡ prefixes.old ++ prefixes_in_text text.now) }
{
    for (i, b) in text.as_bytes().iter().enumerate() {
        if *b == b'<' {
            let (_, rest) = text.split_at(i + 1);
            push_prefix(prefixes, rest)?;
        }
    }
    Ok(())
}

// Adds the prefix of the tag's name at the front of a text.
fn push_prefix(prefixes: &mut Prefixes, text: &str) -> Result<(), AllocError>
    ensures { OnOk result (prefixes.new ≡ prefixes.old ++ prefix_of_tag (tag_name text.now)) }
{
    if let Some(tag) = tag_name(text) {
        prefixes.push_copy(tag.prefix)?;
    }
    Ok(())
}

// The faults of an include directive by itself.
fn include_faults(directive: &Directive) -> Faults
    ensures { result ≡ in_order (include_faults directive.now) }
{
    let attributes = directive.attributes();
    let unnamed = !has_name(attributes.as_slice(), "file");
    attribute_faults(include_table(), attributes.as_slice()).and(Faults::one_if(
        unnamed,
        TranslationFault::BadDirective,
    ).and(Faults::one_if(attributes.repeats(), TranslationFault::BadAttribute)))
}

// Whether the directives that give settings may stand there.
fn may_give(in_tag: bool, stands: Where) -> bool
    ensures { result ≡ may_give in_tag stands }
{
    match stands {
        Where::Page => !in_tag,
        Where::TagFile => in_tag,
        Where::TagFilePart => false,
    }
}

// The faults of a directive that gives settings, by where it stands.
fn giving_faults<'a>(
    in_tag: bool,
    stands: Where,
    first: &FirstReading,
    before: &Before<'a>,
    directive: &Directive<'a>,
) -> Faults
    ensures { result ≡ in_order (giving_faults in_tag stands first.now before.now.directives directive.now) }
{
    if may_give(in_tag, stands) {
        setting_faults(in_tag, first, before, directive)
    } else {
        Faults::one(TranslationFault::BadDirective)
    }
}

// The faults of a directive of another name.
fn other_faults(stands: Where, directive: &Directive) -> Faults
    ensures { result ≡ in_order (other_faults stands directive.now) }
{
    match stands {
        Where::TagFile => Faults::one_if(
            !directive.is_named("attribute") && !directive.is_named("variable"),
            TranslationFault::BadDirective,
        ),
        _ => Faults::one(TranslationFault::BadDirective),
    }
}
