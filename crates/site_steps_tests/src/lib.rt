//! Tests of a site: its operations as one step, its sessions and its journal's limit.
#![tactic(auto)]

#[cfg(test)]
mod journals;
#[cfg(test)]
mod sessions;
#[cfg(test)]
mod steps;
#[cfg(test)]
mod tests;
