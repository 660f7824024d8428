ghost use Rattle.std.specs.Prelude.{◌≡◌, ℕ, List, IfOk};
ghost use Rattle.compiled_pages.specs.Made.{IsBodyBy, IsMade, IsMadeBy, IsUnitOf};
ghost use Rattle.source_tree.specs.declared.file.File.{File};
ghost use Rattle.unit_nodes.specs.Views.{body_view};

use crate::making::program;
use compiled_pages::{Made, MadeBody};
use pg_text::Listed;
use source_tree::{Need, Stamps};
use std::alloc::{AllocError, Global};
use std::sync::Arc;
use unit_nodes::{Unit, UnitBody};

/// What is kept of a unit: its page as the program, or its fault, with the stamps of its
/// dependencies.
pub fn translate(alloc: Global, unit: &Unit) -> Result<Made, AllocError>
    ensures by { IfOk result (λ made. IsMadeBy made unit.now) }
    ensures made { (tree : List File) (path : List ℕ) → IsUnitOf unit.now tree path →
        IfOk result (λ made. IsMade made tree path) }
{
    let deps = copy_stamps(alloc, unit.deps.as_slice())?;
    let body = translate_body(alloc, &unit.body)?;
    Ok(Made { deps, body })
}

// A page as its program, or its fault.
fn translate_body(alloc: Global, body: &UnitBody) -> Result<MadeBody, AllocError>
    ensures { IfOk result (λ made. IsBodyBy made (body_view body.now)) }
{
    match body {
        UnitBody::Good(page) => Ok(MadeBody::Program(Arc::new(alloc, program(alloc, page)?)?)),
        UnitBody::Bad(fault) => Ok(MadeBody::Fault(fault.copy()?)),
    }
}

// Equal stamps.
fn copy_stamps(alloc: Global, needs: &[Need]) -> Result<Stamps, AllocError>
    ensures { IfOk result (λ stamps. stamps ≡ needs.now) }
{
    let mut stamps = Listed::empty(alloc);
    for need in needs {
        stamps.push(Need {
            name: need.name.copy()?,
            stamp: need.stamp,
        })?;
    }
    Ok(stamps)
}
