//! The acts of a page: its unit read once, so that the names of attributes are looked at here
//! alone. An act is an action as its meaning reads it (`page_acts`).
#![tactic(auto)]

mod acts_of_core;
mod acts_of_jsp;
mod attributes;
mod call;
mod contents;
mod named;
mod parts;
mod reading;
mod roles;

pub use reading::acts;
