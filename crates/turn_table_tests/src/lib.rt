//! Tests of turns, alone and in threads.
#![tactic(auto)]

#[cfg(test)]
mod tests;
