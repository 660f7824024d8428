// The tables of a code: what its cells consist of, each of it once where equal ones are near.
ghost use Rattle.std.specs.Prelude.{◌≡◌, IfOk, IfSome, Some, slice_get};
ghost use Rattle.page_code.specs.Tables.{HasNumber};

use crate::equal::{is_same_instr, is_same_place, is_same_shape};
use crate::instr::Instr;
use crate::shape::Shape;
use pg_text::Place;
use std::alloc::AllocError;

// How many entries at the end of each table are searched for an equal one.
const NEAR_INSTRS: usize = 64;

const NEAR_PLACES: usize = 4;

const NEAR_SHAPES: usize = 16;

// The number of an instruction, which joins the table where none near its end is equal.
pub(crate) fn instr_number(instrs: &mut Vec<Instr>, instr: Instr) -> Result<u32, AllocError>
    ensures { IfOk result (λ number. HasNumber instrs.old.items instrs.new.items instr number) }
{
    match near_instr(instrs, &instr) {
        Some(at) => number(at),
        None => {
            let at = instrs.len();
            instrs.push(instr)?;
            number(at)
        }
    }
}

// The number of a place, which joins the table where none near its end is equal.
pub(crate) fn place_number(places: &mut Vec<Place>, place: &Place) -> Result<u32, AllocError>
    ensures { IfOk result (λ number. HasNumber places.old.items places.new.items place.now number) }
{
    match near_place(places, place) {
        Some(at) => number(at),
        None => {
            let at = places.len();
            places.push(place.copy()?)?;
            number(at)
        }
    }
}

// The number of a shape, which joins the table where none near its end is equal.
pub(crate) fn shape_number(shapes: &mut Vec<Shape>, shape: &Shape) -> Result<u32, AllocError>
    ensures { IfOk result (λ number. HasNumber shapes.old.items shapes.new.items shape.now number) }
{
    match near_shape(shapes, shape) {
        Some(at) => number(at),
        None => {
            let at = shapes.len();
            shapes.push(shape.copy()?)?;
            number(at)
        }
    }
}

// A place in a table as a number. A table of 2^32 entries is answered as if memory ran out.
fn number(at: usize) -> Result<u32, AllocError>
    ensures { IfOk result (λ number. number ≡ at) }
{
    u32::try_from(at).map_err(|_| AllocError)
}

// Where an equal instruction stands near the end of the table.
fn near_instr(instrs: &[Instr], instr: &Instr) -> Option<usize>
    ensures { IfSome result (λ at. slice_get instrs.now at ≡ Some instr.now) }
{
    for at in instrs.len().saturating_sub(NEAR_INSTRS)..instrs.len() {
        if is_same_instr(&instrs[at], instr) {
            return Some(at);
        }
    }
    None
}

// Where an equal place stands near the end of the table.
fn near_place(places: &[Place], place: &Place) -> Option<usize>
    ensures { IfSome result (λ at. slice_get places.now at ≡ Some place.now) }
{
    for at in places.len().saturating_sub(NEAR_PLACES)..places.len() {
        if is_same_place(&places[at], place) {
            return Some(at);
        }
    }
    None
}

// Where an equal shape stands near the end of the table.
fn near_shape(shapes: &[Shape], shape: &Shape) -> Option<usize>
    ensures { IfSome result (λ at. slice_get shapes.now at ≡ Some shape.now) }
{
    for at in shapes.len().saturating_sub(NEAR_SHAPES)..shapes.len() {
        if is_same_shape(&shapes[at], shape) {
            return Some(at);
        }
    }
    None
}
