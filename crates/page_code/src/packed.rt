ghost use Rattle.std.specs.Prelude.{◌≡◌, ◌<◌, get_or, length, IfOk};
ghost use Rattle.page_code.specs.Tables.{IsCellAt, IsStepOf, no_cell};

use crate::code::Cell;
use crate::instr::Instr;
use crate::shape::Shape;
use crate::step::Step;
use crate::tables::{instr_number, place_number, shape_number};
use pg_text::Place;
use std::alloc::{AllocError, Global};
use std::marker::Model;

/// A code in little memory, to be kept and run: each cell is three numbers, of its instruction, its
/// place and its shape, of which equal ones that stand near one another are there once. A cell has
/// 12 bytes, an instruction 48, a place and a shape 32 each. Contracts see the list of its cells.
#[derive(Drop)]
pub struct PackedCode {
    steps: Vec<Step>,
    instrs: Vec<Instr>,
    places: Vec<Place>,
    shapes: Vec<Shape>,
}

impl Model for PackedCode {
    ghost use Rattle.std.specs.Prelude.{List, All};
    ghost use Rattle.page_code.specs.declared.code.Cell.{Cell};
    ghost use Rattle.page_code.specs.Tables.{IsListed, step_cells};

    ghost Value = { List Cell };

    ghost use Rattle.pg_value.specs.DatumCode.{data_code, datum_code, entries_code};
    ghost use Rattle.std.specs.Coded.{codes};

    ghost coded = { Prim.hlevel (codes, entries_code, data_code, datum_code) };

    ghost view = { λ c. step_cells c.instrs.items c.places.items c.shapes.items c.steps.items };

    ghost invariant = { λ c. All (IsListed c.instrs.items c.places.items c.shapes.items) c.steps.items };
}

impl PackedCode {
    /// These cells, packed.
    pub(crate) fn of(cells: Vec<Cell>) -> Result<Self, AllocError>
        ensures { IfOk result (λ packed. packed ≡ cells.items) }
    {
        let alloc = *cells.allocator();
        let mut steps = Vec::with_capacity(alloc, cells.len())?;
        let mut instrs = Vec::new(alloc);
        let mut places = Vec::new(alloc);
        let mut shapes = Vec::new(alloc);
        for cell in cells {
            steps.push(step_of(&mut instrs, &mut places, &mut shapes, cell)?)?;
        }
        Ok(PackedCode {
            steps,
            instrs: fitted(alloc, instrs)?,
            places: fitted(alloc, places)?,
            shapes: fitted(alloc, shapes)?,
        })
    }

    #[inline(always)]
    pub fn len(&self) -> usize
        ensures { result ≡ length self.now }
    {
        self.steps.len()
    }

    /// The cell of this number.
    #[inline(always)]
    pub fn cell(&self, at: usize) -> CellRef<'_>
        requires { at < length self.now }
        ensures { IsCellAt self.now at result.instr.now result.place }
    {
        let instr = self.steps[at].instr as usize;
        CellRef {
            instr: &self.instrs[instr],
            place: CellPlace { code: self, at },
        }
    }

    // The place of the cell of this number.
    fn place(&self, at: usize) -> &Place
        requires { at < length self.now }
        ensures { result.now ≡ (get_or self.now at no_cell).place }
    {
        let place = self.steps[at].place as usize;
        &self.places[place]
    }
}

/// A cell of a packed code: its instruction, and its place.
#[derive(Drop)]
pub struct CellRef<'a> {
    pub instr: &'a Instr,
    pub place: CellPlace<'a>,
}

/// The place of a cell, which is looked up where it is asked for. Contracts see the place.
#[derive(Drop)]
pub struct CellPlace<'a> {
    code: &'a PackedCode,
    at: usize,
}

impl<'a> Model for CellPlace<'a> {
    ghost use Rattle.std.specs.Prelude.{◌<◌, get_or, length};
    ghost use Rattle.page_code.specs.Tables.{no_cell};
    ghost use Rattle.pg_text.specs.declared.place.Place.{Place};

    ghost Value = { Place };

    ghost view = { λ p. (get_or p.code.now p.at no_cell).place };

    ghost invariant = { λ p. p.at < length p.code.now };
}

impl<'a> CellPlace<'a> {
    pub fn get(&self) -> &'a Place
        ensures { result.now ≡ self.now }
    {
        self.code.place(self.at)
    }
}

// The step that a cell is, whose parts join the tables where they aren't there.
fn step_of(
    instrs: &mut Vec<Instr>,
    places: &mut Vec<Place>,
    shapes: &mut Vec<Shape>,
    cell: Cell,
) -> Result<Step, AllocError>
    ensures { IfOk result (λ step. IsStepOf instrs.old.items instrs.new.items places.old.items places.new.items
        shapes.old.items shapes.new.items cell step) }
{
    let Cell {
        instr,
        place,
        shape,
    } = cell;
    let place = place_number(places, place.get())?;
    let shape = shape_number(shapes, shape.get())?;
    let instr = instr_number(instrs, instr)?;
    Ok(Step {
        instr,
        place,
        shape,
    })
}

// The same items, with no room for others.
fn fitted<T: Drop>(alloc: Global, items: Vec<T>) -> Result<Vec<T>, AllocError>
    ensures { IfOk result (λ made. made.items ≡ items.items) }
{
    let mut items = items;
    let mut made = Vec::with_capacity(alloc, items.len())?;
    made.append(&mut items)?;
    Ok(made)
}
