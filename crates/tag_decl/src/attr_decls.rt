ghost use Rattle.std.specs.Prelude.{◌≡◌, IfOk, IfSome};
ghost use Rattle.std.specs.List.{slice_get};
ghost use Rattle.std.specs.Option.{option_map};
ghost use Rattle.tag_decl.specs.Required.{required_names};
ghost use Rattle.tag_decl.specs.ReadFirsts.{HasFirsts, first_named};

use crate::declaration::AttrDecl;
use pg_text::{Listed, Text};
use std::alloc::{AllocError, Global};
use std::collections::BTreeMap;
use std::marker::Model;
use std::string::String;

// So many declarations are looked through one after the other.
const FEW: usize = 8;

// Where the first declaration of each name stands.
type Firsts = BTreeMap<String, usize>;

/// Declarations of attributes, in the order written. Contracts see the list of them.
#[derive(Drop)]
pub struct AttrDecls {
    items: Listed<AttrDecl>,
    // Where the first of each name stands, to be looked up; it isn't there where they are few.
    firsts: Option<Firsts>,
    // The names of the required ones.
    required: Listed<Text>,
}

impl Model for AttrDecls {
    ghost use Rattle.std.specs.Prelude.{◌≡◌, List};
    ghost use Rattle.std.specs.Option.{IfSome};
    ghost use Rattle.tag_decl.specs.Required.{required_names};
    ghost use Rattle.tag_decl.specs.declared.declaration.AttrDecl.{AttrDecl};
    ghost use Rattle.tag_decl.specs.ReadFirsts.{HasFirsts};

    ghost Value = { List AttrDecl };

    ghost view = { λ d. d.items };

    ghost invariant = { λ d. IfSome d.firsts (λ firsts. HasFirsts firsts d.items)
        × (d.required ≡ required_names d.items) };
}

impl AttrDecls {
    /// These declarations, to be looked up by name.
    pub fn new(alloc: Global, items: Listed<AttrDecl>) -> Result<Self, AllocError>
        ensures { IfOk result (λ decls. decls ≡ items) }
    {
        let firsts = firsts_of_many(alloc, items.as_slice())?;
        let required = required_names(alloc, items.as_slice())?;
        Ok(AttrDecls {
            items,
            firsts,
            required,
        })
    }

    pub fn as_slice(&self) -> &[AttrDecl]
        ensures { result.now ≡ self.now }
    {
        self.items.as_slice()
    }

    /// The names of those that are required, in their order: a call is asked for them, however many
    /// others are declared.
    pub fn required(&self) -> &[Text]
        ensures { result.now ≡ required_names self.now }
    {
        self.required.as_slice()
    }

    // The first of that name.
    pub(crate) fn first(&self, name: &str) -> Option<&AttrDecl>
        ensures { option_map (λ decl. decl.now) result ≡ first_named name.now self.now }
    {
        match &self.firsts {
            Some(firsts) => first_of(firsts, self.items.as_slice(), name),
            None => first_in(self.items.as_slice(), name),
        }
    }
}

// The first of these declarations that has that name, where it is known where the first of each
// name stands.
fn first_of<'a>(firsts: &Firsts, decls: &'a [AttrDecl], name: &str) -> Option<&'a AttrDecl>
    ensures { HasFirsts firsts.now decls.now → option_map (λ d. d.now) result ≡ first_named name.now decls.now }
{
    match firsts.get(name) {
        Some(at) => decl_at(decls, *at),
        None => None,
    }
}

// The declaration at this place.
fn decl_at(decls: &[AttrDecl], at: usize) -> Option<&AttrDecl>
    ensures { option_map (λ decl. decl.now) result ≡ slice_get decls.now at }
{
    decls.get(at)
}

// The first of these declarations that has that name.
fn first_in<'a>(decls: &'a [AttrDecl], name: &str) -> Option<&'a AttrDecl>
    ensures { option_map (λ decl. decl.now) result ≡ first_named name.now decls.now }
{
    for decl in decls {
        if decl.name.as_str() == name {
            return Some(decl);
        }
    }
    None
}

// Where the first of each name stands among these declarations, where they aren't few.
fn firsts_of_many(alloc: Global, decls: &[AttrDecl]) -> Result<Option<Firsts>, AllocError>
    ensures { IfOk result (λ firsts. IfSome firsts (λ firsts. HasFirsts firsts decls.now)) }
{
    if decls.len() <= FEW {
        return Ok(None);
    }
    Ok(Some(firsts_of(alloc, decls)?))
}

// Where the first of each name stands among these declarations: from the last to the first, each
// takes the place of those behind it.
fn firsts_of(alloc: Global, decls: &[AttrDecl]) -> Result<Firsts, AllocError>
    ensures { IfOk result (λ firsts. HasFirsts firsts decls.now) }
{
    let mut firsts = Firsts::new(alloc);
    let mut at = decls.len();
    while at > 0 {
        at -= 1;
        let decl = &decls[at];
        firsts.insert(String::from_str(alloc, decl.name.as_str())?, at)?;
    }
    Ok(firsts)
}

// The names of the required ones of these declarations.
fn required_names(alloc: Global, decls: &[AttrDecl]) -> Result<Listed<Text>, AllocError>
    ensures { IfOk result (λ names. names ≡ required_names decls.now) }
{
    let mut names = Listed::empty(alloc);
    for decl in decls {
        if decl.required {
            names.push(decl.name.copy()?)?;
        }
    }
    Ok(names)
}
