//! The directives of pages and tag files: what each may say, its faults by what stands before it,
//! and the settings that they give.
#![tactic(auto)]

mod before;
mod buffers;
mod charset;
mod checks;
mod directive;
mod faults;
mod first_reading;
mod giving;
mod known;
mod registering;
mod tables;
mod target;
mod words;

pub use before::{Before, Where};
pub use checks::{Check, Table, attribute_faults};
pub use directive::Directive;
pub use faults::Faults;
pub use first_reading::FirstReading;
pub use giving::{decided, is_value, setting_faults, settings, truth_or};
pub use registering::target_of;
pub use tables::{TRUTHS, tag_table};
pub use target::Target;
pub use words::is_among;
