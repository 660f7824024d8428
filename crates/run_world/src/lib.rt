//! What a page runs in: its program, the seat of its running code, and its world, the variables,
//! the writer, the counts and the site that it may ask.
//!
//! `World` says of each call what it does of the meaning of pages, for whatever state the world
//! stands for. All parts of a run are written over it.
#![tactic(auto)]

mod around;
mod params;
mod program;
mod raised;
mod seat;
mod served;
mod world;

pub use around::Around;
pub use params::Params;
pub use program::{Program, TagProgram, know_tags};
pub use raised::Raise;
pub use seat::{CallSeat, Export, Seat};
pub use served::Served;
pub use world::World;
