//! What a site tells once its passes have worked.
use crate::journal::{agreeing, entries, errand, hits, prepare};
use crate::meeting::{Job, Watch};
use crate::passes::site_after;
use crate::visiting::Errand;
use site_core::Site;
use site_core_tests::{AMPLE, Word, opened, script_told};
use std::alloc::{AllocError, Global};
use std::sync::Wait;
use std::test::Fail;
use std::thread::Threads;

// A site of so many passes, on which there is something to visit.
fn prepared(alloc: Global, passes: u8) -> Result<Site<Word>, Fail> {
    let mut site = opened(alloc, AMPLE, passes)?;
    prepare(alloc, &mut site)?;
    Ok(site)
}

/// The site once each of so many passes has done the job in a thread.
pub fn worked<R: Threads + Wait + Sync>(
    rt: &R,
    alloc: Global,
    passes: u8,
    cookie: &str,
    job: Job,
    watch: &Watch,
) -> Result<Site<Word>, Fail> {
    let errand = errand(alloc, cookie)?;
    worked_for(rt, alloc, passes, &errand, job, watch)
}

fn worked_for<R: Threads + Wait + Sync>(
    rt: &R,
    alloc: Global,
    passes: u8,
    errand: &Errand,
    job: Job,
    watch: &Watch,
) -> Result<Site<Word>, Fail> {
    let site = prepared(alloc, passes)?;
    match site_after(rt, alloc, site, watch, errand, job)? {
        Some(site) => Ok(site),
        None => Err(Fail::new("a request was under way")),
    }
}

/// How many entries the site's journal has, how many of its fetches found something, and to how
/// many of its entries a second site gives the same answers; and then a picture of the site, and
/// one of the second.
pub fn account(alloc: Global, mut site: Site<Word>, passes: u8) -> Result<String, Fail> {
    account_of(alloc, &mut site, passes)
}

fn account_of(alloc: Global, site: &mut Site<Word>, passes: u8) -> Result<String, Fail> {
    let mut again = opened(alloc, AMPLE, passes)?;
    both(alloc, site, &mut again)
}

fn both(alloc: Global, site: &mut Site<Word>, again: &mut Site<Word>) -> Result<String, Fail> {
    let same = agreeing(alloc, again, site.history())?;
    let hits = hits(site.history());
    let count = site.len();
    let first = script_told(alloc, site, PICTURE)?;
    let second = script_told(alloc, again, PICTURE)?;
    Ok(format!(in alloc; "{count} {hits} {same}\n{first}{second}")?)
}

// A picture for the first session.
const PICTURE: &str = "0 picture 0000000000000000ade0b876903df1a0e56a5d4028bd8653\n";

/// The entries of a site from this place on.
pub fn visited(alloc: Global, site: Site<Word>, from: usize) -> Result<String, AllocError> {
    entries(alloc, site.history(), from)
}
