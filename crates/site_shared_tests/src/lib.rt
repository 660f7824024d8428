//! Tests of a site that many passes share: visits in threads, the journal done again on a second
//! site, and a pass that waits.
#![tactic(auto)]

#[cfg(test)]
mod accounts;
#[cfg(test)]
mod journal;
#[cfg(test)]
mod meeting;
#[cfg(test)]
mod passes;
#[cfg(test)]
mod thread_cases;
#[cfg(test)]
mod visiting;
