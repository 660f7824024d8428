ghost use Rattle.std.specs.Prelude.{◌≡◌, ◌++◌, ◌∷◌, [], length, slice_get, option_map, IfOk, OnOk, OnErr};
ghost use Rattle.page_code.specs.Shapes.{cell};

use crate::instr::Instr;
use crate::packed::PackedCode;
use crate::shape::Shape;
use crate::shared::Shared;
use crate::sharing::sharing_with;
use pg_text::Place;
use std::alloc::{AllocError, Global};
use std::marker::Model;

/// An instruction, the place in a file at which its faults stand, and how much stands open before
/// it.
#[derive(Drop)]
pub struct Cell {
    pub instr: Instr,
    pub place: Shared<Place>,
    pub shape: Shared<Shape>,
}

/// The code of a page or of a tag file. Contracts see the list of its cells.
#[derive(Drop)]
pub struct Code {
    cells: Vec<Cell>,
}

impl Model for Code {
    ghost use Rattle.std.specs.Prelude.{List};
    ghost use Rattle.page_code.specs.declared.code.Cell.{Cell};

    ghost Value = { List Cell };

    ghost use Rattle.pg_value.specs.DatumCode.{data_code, datum_code, entries_code};
    ghost use Rattle.std.specs.Coded.{codes};

    ghost coded = { Prim.hlevel (codes, entries_code, data_code, datum_code) };

    ghost view = { λ c. c.cells.items };
}

impl Code {
    pub fn new(alloc: Global) -> Self
        ensures { result ≡ [] }
    {
        Code {
            cells: Vec::new(alloc),
        }
    }

    /// One more cell behind these.
    pub fn put(&mut self, shape: &Shape, place: &Place, instr: Instr) -> Result<(), AllocError>
        ensures ok { OnOk result (self.new ≡ self.old ++ cell shape.now place.now instr ∷ []) }
        ensures err { OnErr result (self.new ≡ self.old) }
    {
        let (place, shape) = shared(*self.cells.allocator(), place, shape)?;
        self.cells.push(Cell {
            instr,
            place,
            shape,
        })?;
        Ok(())
    }

    /// The cells of another code behind these. Where they are few, each shares its place and its
    /// shape with a near cell of these that has the same.
    pub fn join(&mut self, other: Code) -> Result<(), AllocError>
        ensures ok { OnOk result (self.new ≡ self.old ++ other) }
        ensures err { OnErr result (self.new ≡ self.old) }
    {
        let mut cells = sharing_with(self.cells.as_slice(), other.cells)?;
        self.cells.append(&mut cells)?;
        Ok(())
    }

    /// The same code packed, as it is kept and run.
    pub fn pack(self) -> Result<PackedCode, AllocError>
        ensures { IfOk result (λ packed. packed ≡ self) }
    {
        PackedCode::of(self.cells)
    }

    pub fn len(&self) -> usize
        ensures { result ≡ length self.now }
    {
        self.cells.len()
    }

    pub fn get(&self, at: usize) -> Option<&Cell>
        ensures { option_map (λ cell. cell.now) result ≡ slice_get self.now at }
    {
        self.cells.get(at)
    }

    pub fn as_slice(&self) -> &[Cell]
        ensures { result.now ≡ self.now }
    {
        &self.cells
    }
}

// A place and a shape that cells can share.
fn shared(
    alloc: Global,
    place: &Place,
    shape: &Shape,
) -> Result<(Shared<Place>, Shared<Shape>), AllocError>
    ensures { IfOk result (λ both. (both.0 ≡ place.now) × (both.1 ≡ shape.now)) }
{
    let place = shared_place(alloc, place)?;
    let shape = shared_shape(alloc, shape)?;
    Ok((place, shape))
}

fn shared_place(alloc: Global, place: &Place) -> Result<Shared<Place>, AllocError>
    ensures { IfOk result (λ made. made ≡ place.now) }
{
    let place = place.copy()?;
    Shared::new(alloc, place)
}

fn shared_shape(alloc: Global, shape: &Shape) -> Result<Shared<Shape>, AllocError>
    ensures { IfOk result (λ made. made ≡ shape.now) }
{
    let shape = shape.copy()?;
    Shared::new(alloc, shape)
}
