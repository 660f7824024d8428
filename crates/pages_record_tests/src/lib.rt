//! Tests of the command `record`: which inputs are lists of connections, and what is written for
//! them.
#![tactic(auto)]

#[cfg(test)]
mod lists;
#[cfg(test)]
mod moments;
#[cfg(test)]
mod pieces;
#[cfg(test)]
mod recorded;
#[cfg(test)]
mod sessions;
