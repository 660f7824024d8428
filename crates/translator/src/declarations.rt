// Copies of declarations.
ghost use Rattle.std.specs.Prelude.{◌≡◌, IfOk};

use pg_text::{Listed, Text};
use std::alloc::{AllocError, Global};
use tag_decl::{AttrDecl, AttrDecls, TagDecl, VarDecl};

/// What a tag file declares.
pub(crate) fn copied_decl(alloc: Global, decl: &TagDecl) -> Result<TagDecl, AllocError>
    ensures { IfOk result (λ copy. copy ≡ decl.now) }
{
    Ok(TagDecl {
        attributes: copied_attributes(alloc, decl.attributes.as_slice())?,
        variables: copied_variables(alloc, decl.variables.as_slice())?,
        body: decl.body,
        dynamic: copied_name(&decl.dynamic)?,
    })
}

fn copied_attributes(alloc: Global, decls: &[AttrDecl]) -> Result<AttrDecls, AllocError>
    ensures { IfOk result (λ copy. copy ≡ decls.now) }
{
    let mut copies = Listed::empty(alloc);
    for decl in decls {
        copies.push(AttrDecl {
            name: decl.name.copy()?,
            required: decl.required,
            fragment: decl.fragment,
            expression: decl.expression,
            kind: decl.kind,
        })?;
    }
    AttrDecls::new(alloc, copies)
}

fn copied_variables(alloc: Global, decls: &[VarDecl]) -> Result<Listed<VarDecl>, AllocError>
    ensures { IfOk result (λ copy. copy ≡ decls.now) }
{
    let mut copies = Listed::empty(alloc);
    for decl in decls {
        copies.push(VarDecl {
            name: decl.name.copy()?,
            from: copied_name(&decl.from)?,
            scope: decl.scope,
        })?;
    }
    Ok(copies)
}

// A name, where there is one.
fn copied_name(name: &Option<Text>) -> Result<Option<Text>, AllocError>
    ensures { IfOk result (λ copy. copy ≡ name.now) }
{
    match name {
        Some(name) => Ok(Some(name.copy()?)),
        None => Ok(None),
    }
}
