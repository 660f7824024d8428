// Cells that share what is equal with near ones.
ghost use Rattle.std.specs.Prelude.{◌≡◌, IfOk};

use crate::code::Cell;
use crate::equal::{is_same_place, is_same_shape};
use crate::shape::Shape;
use crate::shared::Shared;
use pg_text::Place;
use std::alloc::AllocError;

// How many cells before a cell are searched for what it can share.
const NEAR: usize = 16;

// The same cells, each of which shares what it can with near cells before the first of them, where
// there are few.
pub(crate) fn sharing_with(before: &[Cell], cells: Vec<Cell>) -> Result<Vec<Cell>, AllocError>
    ensures { IfOk result (λ same. same.items ≡ cells.items) }
{
    if before.is_empty() || cells.len() > NEAR {
        return Ok(cells);
    }
    let mut made = Vec::with_capacity(*cells.allocator(), cells.len())?;
    for cell in cells {
        let cell = sharing(before, cell)?;
        made.push(cell)?;
    }
    Ok(made)
}

// The same cell, which shares what it can with the near cells before it.
fn sharing(before: &[Cell], mut cell: Cell) -> Result<Cell, AllocError>
    ensures { IfOk result (λ same. same ≡ cell) }
{
    cell.place = near_place(before, &cell.place)?;
    cell.shape = near_shape(before, &cell.shape)?;
    Ok(cell)
}

// The same place, that of a near cell if one has it.
fn near_place(before: &[Cell], place: &Shared<Place>) -> Result<Shared<Place>, AllocError>
    ensures { IfOk result (λ same. same ≡ place.now) }
{
    for cell in before.iter().rev().take(NEAR) {
        if is_same_place(cell.place.get(), place.get()) {
            return cell.place.copy();
        }
    }
    place.copy()
}

// The same shape, that of a near cell if one has it.
fn near_shape(before: &[Cell], shape: &Shared<Shape>) -> Result<Shared<Shape>, AllocError>
    ensures { IfOk result (λ same. same ≡ shape.now) }
{
    for cell in before.iter().rev().take(NEAR) {
        if is_same_shape(cell.shape.get(), shape.get()) {
            return cell.shape.copy();
        }
    }
    shape.copy()
}
