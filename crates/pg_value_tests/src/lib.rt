//! Tests of values and their coercions, of variables, and of how much a session keeps. What rows
//! can say of them is in `value_rows` and `page_rows`.
#![tactic(auto)]

#[cfg(test)]
mod coercion;
#[cfg(test)]
mod functions;
#[cfg(test)]
mod session;
#[cfg(test)]
mod values;
#[cfg(test)]
mod variables;
