//! The files of a page's unit: a page or a tag file of a tree, read twice, with its static includes
//! in place.
#![tactic(auto)]

mod brought;
mod chain;
mod directive;
mod entry;
mod files;
mod fill;
mod first;
mod found;
mod laws;
mod own;
mod part;
mod placed;
mod placing;
mod prefixes;
mod progress;
mod reading_order;
mod root;
mod second;
mod source_file;
mod splice;
mod steps;
mod volume;
mod within;

pub use directive::WrittenDirective;
pub use entry::Entry;
pub use files::UnitFiles;
pub use laws::same_root;
pub use placed::{PlacedElement, PlacedInclude, PlacedNode};
pub use progress::MAX_NESTING;
pub use reading_order::{directives, first_directives};
pub use root::Root;
pub use steps::level_within;
pub use volume::{MAX_UNIT_BYTES, MAX_UNIT_FILES};
