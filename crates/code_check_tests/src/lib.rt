//! Tests of the check of a code.
#![tactic(auto)]

#[cfg(test)]
mod accepted;
#[cfg(test)]
mod codes;
#[cfg(test)]
mod operations;
#[cfg(test)]
mod values;
