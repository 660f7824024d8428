//! What is decided of one thing of a page: what an element is, its faults by what stands around it
//! and in its body, those of its values and of an expression, and the bean of a class.
#![tactic(auto)]

mod beans;
mod beginning;
mod body;
mod calls;
mod element;
mod functions;
mod here;
mod kind;
mod known;
mod readings;
mod registered;
mod standard;
mod values;

pub use beans::{Bean, bean_of, bean_path};
pub use beginning::Beginning;
pub use body::is_white;
pub use element::{element_faults, value_faults};
pub use here::{Around, Here};
pub use kind::{Kind, kind_of};
pub use known::Known;
pub use readings::Readings;
pub use registered::Registered;
pub use values::{expression_faults, part_faults};
