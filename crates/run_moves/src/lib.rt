//! The moves of a run: each instruction that calls nothing, and what a fault does.
//!
//! Each call makes one move of the instruction table, over any world.
#![tactic(auto)]

mod arms;
mod at;
mod flow;
mod frequent;
mod landing;
mod leave;
mod loops;
mod open;
mod operation;
mod raising;
mod rounds_arm;
mod simple;

pub use at::At;
pub use flow::{End, Flow};
pub use frequent::{is_quick, quick};
pub use landing::fail;
pub use leave::named_path;
pub use open::Open;
pub use raising::{throw, throw_at};
pub use simple::step;
