//! Tests of conversations: a desk that writes in several parts, and whatever may come in the
//! middle.
#![tactic(auto)]

#[cfg(test)]
mod order;
#[cfg(test)]
mod parts;
#[cfg(test)]
mod tests;
