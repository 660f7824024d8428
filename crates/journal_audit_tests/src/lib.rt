//! Tests of the auditor: what it says of journals that are right, wrong in each part, cut, or none;
//! and of the reader by which it reads them.
#![tactic(auto)]

#[cfg(test)]
mod reading;
#[cfg(test)]
mod verdicts;
