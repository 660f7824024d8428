//! Tests of the command `check`.
#![tactic(auto)]

#[cfg(test)]
mod checked;
#[cfg(test)]
mod outside;
#[cfg(test)]
mod pages;
