//! Tests of the edge over TCP, on free ports of this machine.
#![tactic(auto)]

#[cfg(test)]
mod loopback;
