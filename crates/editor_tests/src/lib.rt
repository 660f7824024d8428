//! Tests of what editors say to a site, over the port of a pass that is alone on it.
#![tactic(auto)]

#[cfg(test)]
mod connection;
#[cfg(test)]
mod message;
#[cfg(test)]
mod talks;
#[cfg(test)]
mod telling_cases;
#[cfg(test)]
mod tests;
