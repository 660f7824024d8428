//! The tags of the core library: their attributes, what their bodies hold and where they stand.
#![tactic(auto)]

mod check;
mod content;
mod core_name;
mod core_table;
mod given;
mod host;
mod place;
mod rows;
mod standing;
mod standings;
mod values;

pub use check::{core_faults, is_bodiless, row_faults, split_faults};
pub use core_name::CoreName;
pub use core_table::core_row;
pub use given::{Given, takes_of, takes_parts};
pub use host::Host;
pub use place::{child_faults, place_faults};
pub use rows::{Holds, Row, Stands, Takes};
pub use standing::{Body, Standing};
pub use standings::Standings;
pub use values::taken_faults;
