//! The parts of a run that go well or raise a fault: variables looked up and set, properties,
//! exports, objects, targets, and the operations on values.
//!
//! Each call does one part of the meaning of pages, over any world.
#![tactic(auto)]

mod applied;
mod call_frame;
mod exports;
mod given;
mod objects;
mod operations;
mod output;
mod param_records;
mod request_objects;
mod request_records;
mod set_properties;
mod targets;
mod variables;

pub use applied::Applied;
pub use call_frame::first_frame;
pub use exports::{Change, copy_out, exports_of, give_back, nested_changes};
pub use given::{Given, body_given, fragment_given};
pub use operations::{count_visits, operate, values_taken};
pub use output::put_escaped;
pub use param_records::ParamRecords;
pub use request_records::{FieldRecords, RequestRecords};
pub use set_properties::{find_property, write_back};
pub use targets::{own_params, target_params, target_path};
pub use variables::find;
