ghost use Rattle.std.specs.Prelude.{◌≡◌, [], filter, Some, IfOk};
ghost use Rattle.std.specs.Option.{option_map};
ghost use Rattle.tag_decl.specs.Declare.{declaration};
ghost use Rattle.tag_decl.specs.Faults.{are_good};
ghost use Rattle.unit_source.specs.Placed.{root_view};
ghost use Rattle.unit_words.specs.Calls.{declaration_of};
ghost use Rattle.unit_words.specs.Own.{judged_directives, root_directives, stands_in};

use page_directives::Directive;
use pg_text::Path;
use std::alloc::{AllocError, Global};
use std::marker::Model;
use std::sync::Arc;
use tag_decl::{AttrDecls, TagDecl, declare, is_good};
use unit_source::{Root, directives, first_directives};

/// A tag file that was read. Contracts see it as it was read.
#[derive(Drop)]
pub(crate) struct Tag {
    root: Root,
    // What it declares, where its declarations have no fault.
    declared: Option<TagDecl>,
}

impl Model for Tag {
    ghost use Rattle.std.specs.Prelude.{◌≡◌, Some};
    ghost use Rattle.std.specs.Coded.{codes};
    ghost use Rattle.unit_source.specs.contracts.placed.PlacedNode as e;
    ghost use Rattle.unit_source.specs.declared.root.Root.{Root as Kept};
    ghost use Rattle.unit_source.specs.Placed.{root_view};
    ghost use Rattle.unit_words.specs.Calls.{declaration_of};

    ghost Value = { Kept };

    ghost coded = { Prim.hlevel (codes, e.the_row.coded) };

    ghost view = { λ t. t.root };

    ghost invariant = { λ t. t.declared ≡ declaration_of (Some (root_view t.root)) };
}

impl Tag {
    pub fn new(alloc: Global, root: Root) -> Result<Self, AllocError>
        ensures { IfOk result (λ tag. tag ≡ root) }
    {
        let declared = declared_in(alloc, &root)?;
        Ok(Tag { root, declared })
    }

    pub fn root(&self) -> &Root
        ensures { result.now ≡ self.now }
    {
        &self.root
    }

    /// What it declares, where its declarations have no fault.
    pub fn declared(&self) -> Option<&TagDecl>
        ensures { option_map (λ decl. decl.now) result ≡ declaration_of (Some (root_view self.now)) }
    {
        self.declared.as_ref()
    }
}

/// Lets go of a tag file. A function of its own, so that what this takes isn't on the stack while
/// the tag file is read.
#[inline(never)]
pub(crate) fn let_go(tag: Arc<Tag>) {
    drop(tag);
}

// Whether a directive stands in a file.
fn stands_in(path: &Path, directive: &Directive) -> bool
    ensures { result ≡ stands_in path.now directive.now }
{
    directive.place().file.as_str() == path.as_str()
}

// Those of these directives that stand in a file.
fn standing_in<'r>(path: &Path, directives: Vec<Directive<'r>>) -> Vec<Directive<'r>>
    ensures { result.items ≡ filter (stands_in path.now) directives.entry.items }
{
    let mut own = directives;
    own.retain(|directive| stands_in(path, directive));
    own
}

// The directives of the first reading that stand in a page or tag file itself.
fn own_directives<'r>(alloc: Global, root: &'r Root) -> Result<Vec<Directive<'r>>, AllocError>
    ensures { IfOk result (λ own. own.items ≡ root_directives (root_view root.now)) }
{
    let first = first_directives(alloc, root)?;
    Ok(standing_in(&root.path, first))
}

// The directives of the second reading that stand in a tag file itself: by them it is judged
// whether what it declares is good.
fn judged_directives<'r>(alloc: Global, root: &'r Root) -> Result<Vec<Directive<'r>>, AllocError>
    ensures { IfOk result (λ own. own.items ≡ judged_directives (root_view root.now)) }
{
    let both = directives(alloc, &root.nodes)?;
    Ok(standing_in(&root.path, both))
}

/// What the directives of a page or tag file itself declare.
pub(crate) fn declaration(alloc: Global, root: &Root) -> Result<TagDecl, AllocError>
    ensures { IfOk result (λ decl. decl ≡ declaration (root_directives (root_view root.now))) }
{
    let own = own_directives(alloc, root)?;
    declare(alloc, &own)
}

// Whether the directives of the second reading that stand in a tag file itself have no fault, where
// it declares these attributes.
fn is_well_judged(alloc: Global, root: &Root, decls: &AttrDecls) -> Result<bool, AllocError>
    ensures { IfOk result (λ good. good ≡ are_good decls.now [] (judged_directives (root_view root.now))) }
{
    let judged = judged_directives(alloc, root)?;
    is_good(alloc, decls, judged)
}

// What a tag file declares, where its directives have no fault.
#[tactic(auto, unfolding(tag_decl::specs::Declare::declaration))]
fn declared_in(alloc: Global, root: &Root) -> Result<Option<TagDecl>, AllocError>
    ensures { IfOk result (λ declared. declared ≡ declaration_of (Some (root_view root.now))) }
{
    let declared = declaration(alloc, root)?;
    if is_well_judged(alloc, root, &declared.attributes)? {
        Ok(Some(declared))
    } else {
        Ok(None)
    }
}
