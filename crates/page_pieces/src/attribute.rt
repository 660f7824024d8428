ghost use Rattle.std.specs.Prelude.{◌≡◌, [], ◌∷◌, ◌++◌, IfOk, OnOk};
ghost use Rattle.std.specs.Option.{option_map};
ghost use Rattle.page_pieces.specs.Settings.{plain_text, value_of};
ghost use Rattle.page_pieces.specs.Repeats.{has_name, has_repeat};

use crate::firsts::{Firsts, first_value, firsts_of_many, is_first};
use pg_text::{Listed, Place, Text};
use std::alloc::{AllocError, Global};
use std::collections::BTreeSet;
use std::marker::Model;

/// A part of the value of an attribute.
#[derive(Drop)]
pub enum Part {
    /// Text, its escapes replaced.
    Text(Text),
    /// The text of an expression, between `${` and `}`, its escapes replaced.
    Expr(Text),
    /// A `#{` that is no text: E16.
    Hash,
}

/// The parts of a value in order.
pub type Parts = Listed<Part>;

/// An attribute of an element or a directive. Its place is the first byte of its value, which is
/// the quote behind it where the value is empty.
#[derive(Drop)]
pub struct Attribute {
    pub name: Text,
    pub parts: Parts,
    pub place: Place,
}

/// Attributes in the order written. Contracts see the list of them.
#[derive(Drop)]
pub struct Attributes {
    items: Listed<Attribute>,
    repeats: bool,
    // Where the first of each name stands, to be looked up; it isn't there where they are few.
    firsts: Option<Firsts>,
}

impl Model for Attributes {
    ghost use Rattle.std.specs.Prelude.{◌≡◌, List};
    ghost use Rattle.std.specs.Option.{IfSome};
    ghost use Rattle.page_pieces.specs.declared.attribute.Attribute.{Attribute};
    ghost use Rattle.page_pieces.specs.ReadFirsts.{HasFirsts};
    ghost use Rattle.page_pieces.specs.Repeats.{has_repeat};

    ghost Value = { List Attribute };

    ghost view = { λ a. a.items };

    ghost invariant = { λ a. (a.repeats ≡ has_repeat a.items)
        × IfSome a.firsts (λ firsts. HasFirsts firsts a.items) };
}

impl Attributes {
    pub(crate) fn new(alloc: Global, items: Listed<Attribute>) -> Result<Self, AllocError>
        ensures { IfOk result (λ attributes. attributes ≡ items) }
    {
        let repeats = has_repeat(alloc, items.as_slice())?;
        let firsts = firsts_of_many(alloc, items.as_slice())?;
        Ok(Attributes {
            items,
            repeats,
            firsts,
        })
    }

    pub fn as_slice(&self) -> &[Attribute]
        ensures { result.now ≡ self.now }
    {
        self.items.as_slice()
    }

    /// The text of the first attribute of that name, where there is one and its value is nothing
    /// but text.
    pub fn plain(&self, name: &str) -> Option<&str>
        ensures { option_map (λ text. text.now) result ≡ value_of name.now self.now }
    {
        match &self.firsts {
            Some(firsts) => first_value(firsts, self.items.as_slice(), name),
            None => value_of(self.items.as_slice(), name),
        }
    }

    /// Whether one of them has that name.
    pub fn has_name(&self, name: &str) -> bool
        ensures { result ≡ has_name name.now self.now }
    {
        match &self.firsts {
            Some(firsts) => is_first(firsts, name),
            None => has_name(self.items.as_slice(), name),
        }
    }

    /// Whether a name stands twice.
    pub fn repeats(&self) -> bool
        ensures { result ≡ has_repeat self.now }
    {
        self.repeats
    }
}

/// The text of a value, where it is nothing but text.
pub fn plain_text(parts: &[Part]) -> Option<&str>
    ensures { option_map (λ text. text.now) result ≡ plain_text parts.now }
{
    match parts {
        [] => Some(""),
        [Part::Text(text)] => Some(text.as_str()),
        _ => None,
    }
}

/// The text of the first attribute of that name, where its value is nothing but text.
pub fn value_of<'a>(attributes: &'a [Attribute], name: &str) -> Option<&'a str>
    ensures { option_map (λ text. text.now) result ≡ value_of name.now attributes.now }
{
    for attribute in attributes {
        if attribute.name.as_str() == name {
            return plain_text(attribute.parts.as_slice());
        }
    }
    None
}

/// Whether one of these attributes has that name.
pub fn has_name(attributes: &[Attribute], name: &str) -> bool
    ensures { result ≡ has_name name.now attributes.now }
{
    for attribute in attributes {
        if attribute.name.as_str() == name {
            return true;
        }
    }
    false
}

// Whether a name stands twice.
#[tactic(auto, using(crate::proofs::RepeatLemmas::hits_found))]
fn has_repeat(alloc: Global, attributes: &[Attribute]) -> Result<bool, AllocError>
    ensures { IfOk result (λ found. found ≡ has_repeat attributes.now) }
{
    let mut seen: BTreeSet<&str> = BTreeSet::new(alloc);
    for attribute in attributes {
        if !seen.insert(attribute.name.as_str())? {
            return Ok(true);
        }
    }
    Ok(false)
}
