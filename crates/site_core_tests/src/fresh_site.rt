//! Scripts on a new site, as the tests have them.
use crate::calls::script_told;
use crate::opening::{AMPLE, opened, seeded};
use crate::word::Word;
use pg_text::{BadPath, Failure};
use site_core::Site;
use std::alloc::{AllocError, Global};

/// What the lines come to on a new site whose journal weighs at most `limit`, for so many passes,
/// once so many sessions were made.
pub fn played(
    alloc: Global,
    limit: u64,
    passes: u8,
    sessions: u64,
    script: &str,
) -> Result<String, Failure<BadPath>> {
    match opened(alloc, limit, passes) {
        Ok(mut site) => on_site(alloc, &mut site, sessions, script),
        Err(Failure::NoMemory) => Err(Failure::NoMemory),
        Err(Failure::Fault(_)) => Ok(unsound(alloc)?),
    }
}

fn on_site(
    alloc: Global,
    site: &mut Site<Word>,
    sessions: u64,
    script: &str,
) -> Result<String, Failure<BadPath>> {
    make_sessions(alloc, site, sessions)?;
    script_told(alloc, site, script)
}

// So many requests, each of which makes a session and ends.
fn make_sessions(alloc: Global, site: &mut Site<Word>, count: u64) -> Result<(), Failure<BadPath>> {
    for request in 0..count {
        let script = format!(in alloc; "0 begin - 0\n0 fresh {request}\n0 end {request} -\n")?;
        script_told(alloc, site, script.as_str())?;
    }
    Ok(())
}

fn unsound(alloc: Global) -> Result<String, AllocError> {
    String::from_str(alloc, "unsound\n")
}

/// The id of the session with this number on a site whose seed ends with this byte, and has noughts
/// before.
pub fn session_id(alloc: Global, last: u8, number: u64) -> Result<String, AllocError> {
    let mut seed = [0; 32];
    seed[31] = last;
    match seeded(alloc, seed, AMPLE, 1) {
        Ok(site) => id_on(alloc, &site, number),
        Err(Failure::NoMemory) => Err(AllocError),
        Err(Failure::Fault(_)) => unsound(alloc),
    }
}

fn id_on(alloc: Global, site: &Site<Word>, number: u64) -> Result<String, AllocError> {
    let id = site.session_id(number)?;
    String::from_str(alloc, id.as_str())
}
