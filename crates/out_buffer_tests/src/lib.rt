//! Tests of the writer of responses, and of that of a page run.
#![tactic(auto)]

#[cfg(test)]
mod acts;
#[cfg(test)]
mod committing;
#[cfg(test)]
mod keeping;
#[cfg(test)]
mod responses;
#[cfg(test)]
mod tests;
