// The program of a page.
ghost use Rattle.std.specs.Prelude.{◌≡◌, map, IfOk};
ghost use Rattle.page_code.specs.Fits.{CodeFits};
ghost use Rattle.code_lowering.specs.Programs as lowering;
ghost use Rattle.code_lowering.specs.Programs.{code_of, file_place, tag_code_of};
ghost use Rattle.unit_meaning.specs.Shape.{nodes_of as shape_of, page_of};
ghost use Rattle.run_world.specs.Programs.{program_of};
ghost use Rattle.run_world.specs.Tags.{tag_of};
ghost use Rattle.unit_nodes.specs.Views.{nodes_of, page_view};

use crate::declarations::copied_decl;
use act_reader::acts;
use code_check::CheckedCode;
use code_forms::ended;
use code_lowering::programs;
use code_nodes::nodes;
use page_code::{Code, Shape};
use pg_text::{Listed, Path, Place};
use run_world::{Program, TagProgram};
use std::alloc::{AllocError, Global};
use unit_nodes::{Page, TagFile, UnitNode};

/// The program of a page: its code, and those of the tag files of its unit.
pub fn program(alloc: Global, page: &Page) -> Result<Program, AllocError>
    ensures { IfOk result (λ program. program_of program ≡ lowering.program_of (page_of (page_view page.now))) }
{
    programs();
    Ok(Program {
        path: page.path.copy()?,
        settings: page.settings.copy()?,
        code: file_code(alloc, page, &page.path, &page.nodes)?,
        tags: tag_programs(alloc, page)?,
    })
}

// The codes of the tag files of a page's unit.
fn tag_programs(alloc: Global, page: &Page) -> Result<Listed<TagProgram>, AllocError>
    ensures { IfOk result (λ tags. map tag_of tags ≡ map (tag_code_of (page_of (page_view page.now)))
        (page_of (page_view page.now)).tags) }
{
    programs();
    let mut tags = Listed::empty(alloc);
    for tag in &page.tags {
        let code = file_code(alloc, page, &tag.path, &tag.nodes)?;
        tags.push(tag_program(alloc, tag, code)?)?;
    }
    Ok(tags)
}

// A tag file with its code.
fn tag_program(alloc: Global, tag: &TagFile, code: CheckedCode) -> Result<TagProgram, AllocError>
    ensures { IfOk result (λ made. tag_of made
        ≡ record { path = tag.now.path; decl = tag.now.decl; settings = tag.now.settings; code = code }) }
{
    Ok(TagProgram {
        path: tag.path.copy()?,
        decl: copied_decl(alloc, &tag.decl)?,
        settings: tag.settings.copy()?,
        code,
    })
}

// The code of a file's nodes in the unit of a page, with its end.
fn file_code(
    alloc: Global,
    page: &Page,
    path: &Path,
    written: &[UnitNode],
) -> Result<CheckedCode, AllocError>
    requires { CodeFits (code_of (page_of (page_view page.now)) (file_place path.now)
        (shape_of (nodes_of written.now))) }
    ensures { IfOk result (λ code. code ≡ code_of (page_of (page_view page.now)) (file_place path.now)
        (shape_of (nodes_of written.now))) }
{
    let acts = acts(alloc, written)?;
    let part = nodes(alloc, page, &Shape::empty(alloc)?, &acts)?;
    checked(ended(alloc, &file_place(path)?, part)?)
}

// A code whose shapes fit.
fn checked(code: Code) -> Result<CheckedCode, AllocError>
    requires { CodeFits code }
    ensures { IfOk result (λ made. made ≡ code) }
{
    match CheckedCode::new(code)? {
        Some(made) => Ok(made),
        None => unreachable!(),
    }
}

// Where the end of a file's code stands.
fn file_place(path: &Path) -> Result<Place, AllocError>
    ensures { IfOk result (λ place. place ≡ file_place path.now) }
{
    Ok(Place {
        file: path.copy()?,
        byte: 0,
        line: 1,
        column: 1,
    })
}
