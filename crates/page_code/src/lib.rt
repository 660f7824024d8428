//! The code that pages run as: instructions, each with its place and with what stands open before
//! it.
#![tactic(auto)]

mod bean;
mod call;
mod code;
mod counts;
mod equal;
mod instr;
mod name;
mod op;
mod operands;
mod packed;
mod shape;
mod shared;
mod sharing;
mod step;
mod tables;

pub use bean::Bean;
pub use call::{CallBody, CallOut, Fragment, Leave, TagCall};
pub use code::{Cell, Code};
pub use counts::values_of_address;
pub use instr::Instr;
pub use name::{MAX_NAME_BYTES, Name};
pub use op::Op;
pub use operands::{Coercion, HeaderObject, Implicit, LoopKind, Over, PropertyMode, ScopedName};
pub use packed::{CellPlace, CellRef, PackedCode};
pub use shape::{Catches, Level, Shape};
pub use shared::Shared;
