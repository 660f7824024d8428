//! Tests of the words of texts, paths and faults, and of trees of files.
#![tactic(auto)]

#[cfg(test)]
mod paths;
#[cfg(test)]
mod texts;
#[cfg(test)]
mod trees;
