//! Tests of the edge: sources, sinks, clocks and counts as a crate above uses them.
#![tactic(auto)]

#[cfg(test)]
mod tests;
