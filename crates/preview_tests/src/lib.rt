//! Tests of previews of a site that has something.
#![tactic(auto)]

#[cfg(test)]
mod live;
