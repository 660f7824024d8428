ghost use Rattle.std.specs.Prelude.{◌≡◌, ◌∷◌, ◌++◌, [], List, length, IfOk, IfSome, OnOk};
ghost use Rattle.std.specs.Option.{option_map};
ghost use Rattle.page_pieces.specs.declared.attribute.Attribute.{Attribute};
ghost use Rattle.page_pieces.specs.Repeats.{has_name};
ghost use Rattle.page_pieces.specs.Settings.{value_of};
ghost use Rattle.page_pieces.specs.ReadFirsts.{HasFirsts};

use crate::attribute::{Attribute, plain_text};
use std::alloc::{AllocError, Global};
use std::collections::BTreeMap;
use std::string::String;

// So many attributes are looked through one after the other.
const FEW: usize = 8;

// Where the first attribute of each name stands.
pub(crate) type Firsts = BTreeMap<String, usize>;

// Where the first of each name stands among these attributes, where they aren't few.
pub(crate) fn firsts_of_many(
    alloc: Global,
    attributes: &[Attribute],
) -> Result<Option<Firsts>, AllocError>
    ensures { IfOk result (λ firsts. IfSome firsts (λ firsts. HasFirsts firsts attributes.now)) }
{
    if attributes.len() <= FEW {
        return Ok(None);
    }
    Ok(Some(firsts_of(alloc, attributes)?))
}

// Where the first of each name stands among these attributes.
fn firsts_of(alloc: Global, attributes: &[Attribute]) -> Result<Firsts, AllocError>
    ensures { IfOk result (λ firsts. HasFirsts firsts attributes.now) }
{
    let mut firsts = Firsts::new(alloc);
    for (i, attribute) in attributes.iter().enumerate() {
        insert_new(alloc, &mut firsts, attribute, i)?;
    }
    Ok(firsts)
}

// Adds where an attribute stands, where its name is new.
fn insert_new(
    alloc: Global,
    firsts: &mut Firsts,
    attribute: &Attribute,
    at: usize,
) -> Result<(), AllocError>
    ensures { OnOk result ((before : List Attribute) → length before ≡ at → HasFirsts firsts.old before →
        HasFirsts firsts.new (before ++ attribute.now ∷ [])) }
{
    let name = attribute.name.as_str();
    if !firsts.contains_key(name) {
        firsts.insert(String::from_str(alloc, name)?, at)?;
    }
    Ok(())
}

// The text of the first attribute of that name, where there is one and its value is nothing but
// text.
pub(crate) fn first_value<'a>(
    firsts: &Firsts,
    attributes: &'a [Attribute],
    name: &str,
) -> Option<&'a str>
    ensures { HasFirsts firsts.now attributes.now → option_map (λ text. text.now) result
        ≡ value_of name.now attributes.now }
{
    let Some(at) = firsts.get(name) else {
        return None;
    };
    match attributes.get(*at) {
        Some(attribute) => plain_text(attribute.parts.as_slice()),
        None => None,
    }
}

// Whether an attribute has that name.
pub(crate) fn is_first(firsts: &Firsts, name: &str) -> bool
    ensures { (attributes : List Attribute) → HasFirsts firsts.now attributes →
        result ≡ has_name name.now attributes }
{
    firsts.contains_key(name)
}
