//! Tests of what depends on what, and of the store of values.
#![tactic(auto)]

#[cfg(test)]
mod deps_cases;
#[cfg(test)]
mod keeping;
#[cfg(test)]
mod listed;
#[cfg(test)]
mod store_cases;
#[cfg(test)]
mod versions;
#[cfg(test)]
mod wants;
#[cfg(test)]
mod word;
