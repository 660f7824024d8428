//! Tests of the response of a request over the port of a pass that is alone on its site, also from
//! one request of a session to the next; and of connections to a site on which another pass
//! publishes meanwhile.
#![tactic(auto)]

#[cfg(test)]
mod answering;
#[cfg(test)]
mod answers;
#[cfg(test)]
mod asking;
#[cfg(test)]
mod opening;
#[cfg(test)]
mod preceded;
#[cfg(test)]
mod publishing;
#[cfg(test)]
mod request;
#[cfg(test)]
mod streams;
#[cfg(test)]
mod versions;
#[cfg(test)]
mod watching;
