use page_code::CellRef;
use run_world::{Seat, Served};

/// Where a run is: what it serves, the seat of its code, and the number and the cell of the
/// instruction there that it does.
#[derive(Drop)]
pub struct At<'a> {
    pub served: &'a Served<'a>,
    pub seat: &'a Seat<'a>,
    pub pc: usize,
    pub cell: CellRef<'a>,
}
