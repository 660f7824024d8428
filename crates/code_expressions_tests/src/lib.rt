//! Tests of the code of expressions.
#![tactic(auto)]

#[cfg(test)]
mod codes;
#[cfg(test)]
mod show;
