//! The unit of a page as its readers and writers share it: nodes, tag files and beans, or a fault,
//! and the files on which it depends.
#![tactic(auto)]

mod jsp_name;
mod unit;

pub use jsp_name::JspName;
pub use unit::{
    Action, ActionKind, Page, TagFile, Unit, UnitAttribute, UnitAttributes, UnitBody, UnitNode,
    UnitPart, UnitParts,
};
