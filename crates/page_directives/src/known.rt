ghost use Rattle.std.specs.Prelude.{◌≡◌, ◌∷◌, ◌++◌, [], List, IfOk, OnOk};
ghost use Rattle.std.specs.Option.{IfSome, option_map};
ghost use Rattle.page_pieces.specs.declared.attribute.Attribute.{Attribute as Given};
ghost use Rattle.page_pieces.specs.Settings.{value_of};
ghost use Rattle.page_directives.specs.Directive.{Directive as Seen};
ghost use Rattle.page_directives.specs.ReadKnown.{HasFirst, HasTargets, IsKnown};
ghost use Rattle.page_directives.specs.Settings.{given, giver};
ghost use Rattle.page_directives.specs.Taglibs.{target_of};

use crate::directive::Directive;
use crate::target::Target;
use page_pieces::{Attribute, Attributes, plain_text};
use std::alloc::{AllocError, Global};
use std::collections::BTreeMap;

/// What the directives before said first, to be looked up by name.
#[derive(Drop)]
pub(crate) struct Known<'a> {
    // The first attribute of each name that `page` directives give, and that `tag` directives give.
    page: BTreeMap<&'a str, &'a Attribute>,
    tag: BTreeMap<&'a str, &'a Attribute>,
    // What each prefix stands for.
    targets: BTreeMap<&'a str, Target>,
}

impl<'a> Known<'a> {
    /// Nothing was said.
    pub fn new(alloc: Global) -> Self
        ensures { IsKnown result [] }
    {
        Known {
            page: BTreeMap::new(alloc),
            tag: BTreeMap::new(alloc),
            targets: BTreeMap::new(alloc),
        }
    }

    /// The same behind one more directive.
    pub fn behind(mut self, directive: &Directive<'a>) -> Result<Self, AllocError>
        ensures { IfOk result (λ known. (before : List Seen) → IsKnown self.entry before →
            IsKnown known (before ++ directive.now ∷ [])) }
    {
        add_given(&mut self.page, "page", directive)?;
        add_given(&mut self.tag, "tag", directive)?;
        add_target(&mut self.targets, directive)?;
        Ok(self)
    }

    /// The text of the first attribute of that name, of those that directives that give settings
    /// gave and of others behind them.
    pub fn value<'b>(&'b self, in_tag: bool, own: &'b Attributes, name: &str) -> Option<&'b str>
        ensures { (before : List Seen) → IsKnown self.now before → option_map (λ text. text.now) result
            ≡ value_of name.now (given (giver in_tag) before ++ own.now) }
    {
        if in_tag {
            first_value(&self.tag, own, name)
        } else {
            first_value(&self.page, own, name)
        }
    }

    /// What a prefix stands for.
    pub fn target(&self, prefix: &str) -> Option<&Target>
        ensures { (before : List Seen) → IsKnown self.now before → option_map (λ target. target.now) result
            ≡ target_of prefix.now before }
    {
        self.targets.get(prefix)
    }
}

// The text of the first attribute of that name, of those that are known and of others behind them.
fn first_value<'a, 'b>(
    known: &'b BTreeMap<&'a str, &'a Attribute>,
    own: &'b Attributes,
    name: &str,
) -> Option<&'b str>
    ensures { (all : List Given) → HasFirst known.now all → option_map (λ text. text.now) result
        ≡ value_of name.now (all ++ own.now) }
{
    match known.get(name) {
        Some(attribute) => plain_text(attribute.parts.as_slice()),
        None => own.plain(name),
    }
}

// Adds an attribute, where its name is new.
fn add_new<'a>(
    known: &mut BTreeMap<&'a str, &'a Attribute>,
    attribute: &'a Attribute,
) -> Result<(), AllocError>
    ensures { OnOk result ((all : List Given) → HasFirst known.old all →
        HasFirst known.new (all ++ attribute.now ∷ [])) }
{
    let name = attribute.name.as_str();
    if !known.contains_key(name) {
        known.insert(name, attribute)?;
    }
    Ok(())
}

// Adds the first attribute of each name that is new.
fn add_first<'a>(
    known: &mut BTreeMap<&'a str, &'a Attribute>,
    attributes: &'a [Attribute],
) -> Result<(), AllocError>
    ensures { OnOk result ((all : List Given) → HasFirst known.old all →
        HasFirst known.new (all ++ attributes.now)) }
{
    for attribute in attributes {
        add_new(known, attribute)?;
    }
    Ok(())
}

// Adds the attributes of a directive, where it has that name.
fn add_given<'a>(
    known: &mut BTreeMap<&'a str, &'a Attribute>,
    giver: &str,
    directive: &Directive<'a>,
) -> Result<(), AllocError>
    ensures { OnOk result ((before : List Seen) → HasFirst known.old (given giver.now before) →
        HasFirst known.new (given giver.now (before ++ directive.now ∷ []))) }
{
    if directive.is_named(giver) {
        add_first(known, directive.attributes().as_slice())?;
    }
    Ok(())
}

// Adds what the prefix of a directive stands for, where it is new.
fn add_target<'a>(
    known: &mut BTreeMap<&'a str, Target>,
    directive: &Directive<'a>,
) -> Result<(), AllocError>
    ensures { OnOk result ((before : List Seen) → HasTargets known.old before →
        HasTargets known.new (before ++ directive.now ∷ [])) }
{
    let Some(prefix) = directive.prefix() else {
        return Ok(());
    };
    let Some(target) = directive.target() else {
        return Ok(());
    };
    if !known.contains_key(prefix) {
        known.insert(prefix, target.copy()?)?;
    }
    Ok(())
}

/// What is known with one more directive, unless memory ran out for what was known before.
pub(crate) fn known_behind<'a>(
    known: Option<Known<'a>>,
    directive: &Directive<'a>,
) -> Result<Option<Known<'a>>, AllocError>
    ensures { IfOk result (λ more. (before : List Seen) →
        IfSome known.entry (λ known. IsKnown known before) →
        IfSome more (λ known. IsKnown known (before ++ directive.now ∷ []))) }
{
    match known {
        Some(known) => Ok(Some(known.behind(directive)?)),
        None => Ok(None),
    }
}
