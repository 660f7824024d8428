//! Tests of several contexts.
#![tactic(auto)]

#[cfg(test)]
mod names;
