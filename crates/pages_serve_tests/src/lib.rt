//! Tests of a site that is served in threads: two requests are answered at the same time, readers
//! can't edit, rounds go on from each other, and what words ask for.
#![tactic(auto)]

#[cfg(test)]
mod asked;
#[cfg(test)]
mod at_once;
#[cfg(test)]
mod opening;
#[cfg(test)]
mod parted;
#[cfg(test)]
mod rolling;
#[cfg(test)]
mod serving;
#[cfg(test)]
mod wires;
