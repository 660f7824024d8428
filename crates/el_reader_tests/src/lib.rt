//! Tests of the reader of expressions.
#![tactic(auto)]

#[cfg(test)]
mod expressions;
#[cfg(test)]
mod faults;
#[cfg(test)]
mod show;
