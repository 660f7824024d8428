use crate::opening::opened;
use crate::serving::{Said, served, wires_of};
use crate::wires::Wire;
use compiled_pages::Made;
use edges::MemSink;
use pages_serve::onward;
use site_core::Site;
use std::alloc::Global;
use std::sync::Wait;
use std::sync::atomic::AtomicU64;
use std::test::Fail;
use std::thread::Threads;

// A page that counts for all.
const FILES: [(&str, &str); 1] = [(
    "/n.jsp",
    "<%@ page session=\"false\" %><%@ taglib prefix=\"c\" uri=\"jakarta.tags.core\" %><c:set var=\"n\" value=\"${n + 1}\" scope=\"application\"/>${n}",
)];

const ASKS: &str = "GET /n.jsp HTTP/1.1\r\nHost: x\r\n\r\n";

// How the answers of three rounds end.
const ENDS: [&str; 3] = ["\r\n\r\n1", "\r\n\r\n2", "\r\n\r\n3"];

// The writes that fail, and how many journals were written.
const SINKS: [(&[u64], usize); 3] = [(&[], 3), (&[0], 2), (&[0, 1, 2], 0)];

// What each round is asked.
const SAID: Said<'static> = Said {
    readers: &[ASKS],
    editors: &[],
    previews: &[],
    is_held: false,
};

// Whether what the first connection was answered ends so.
fn ends_first<R: Wait>(rt: &R, wires: &[Wire], end: &str) -> bool {
    match wires.first() {
        Some(wire) => wire.ends_with(rt, end.as_bytes()),
        None => false,
    }
}

// The site of the next round.
fn next_site(alloc: Global, site: Site<Made>, journals: &mut MemSink) -> Result<Site<Made>, Fail> {
    if !site.at_rest() {
        return Err(Fail::new("a request is under way"));
    }
    Ok(onward(alloc, site, journals))
}

// One round of a site, and the site of the next one.
fn rolled<R: Threads + Wait + Sync>(
    rt: &R,
    alloc: Global,
    site: Site<Made>,
    wires: &[Wire],
    journals: &mut MemSink,
) -> Result<Site<Made>, Fail> {
    let gave_up = AtomicU64::new(0);
    let site = served(rt, alloc, site, SAID, wires, &gave_up)?;
    next_site(alloc, site, journals)
}

// Whether what the first of these connections is answered in three rounds ends each time as it
// should.
fn are_answered<R: Threads + Wait + Sync>(
    rt: &R,
    alloc: Global,
    wires: &[Wire],
    journals: &mut MemSink,
) -> Result<bool, Fail> {
    let mut site = opened(alloc, &FILES, 0, 2)?;
    let mut are_right = true;
    for &end in &ENDS {
        site = rolled(rt, alloc, site, wires, journals)?;
        are_right = are_right && ends_first(rt, wires, end);
    }
    Ok(are_right)
}

// How many journals stand one behind the other.
fn count_of(journals: &[u8]) -> usize {
    let mut count: usize = 0;
    for bytes in journals.windows(8) {
        if bytes == b"PGJRNL1\n".as_slice() {
            count = count.saturating_add(1);
        }
    }
    count
}

// Whether three rounds are right over a sink that fails at these writes, and write so many
// journals.
fn are_written<R: Threads + Wait + Sync>(
    rt: &R,
    alloc: Global,
    fails: &[u64],
    count: usize,
) -> Result<bool, Fail> {
    let wires = wires_of(alloc, SAID)?;
    let mut journals = MemSink::new(alloc, fails.to_vec(alloc)?);
    let are_answered = are_answered(rt, alloc, &wires, &mut journals)?;
    Ok(are_answered && count_of(journals.taken()) == count)
}

// Each round begins where the one before ended, with its journal written or not.
#[test]
fn rounds_go_on_from_each_other(rt: HostRuntime) -> Result<(), Fail> {
    for &(fails, count) in &SINKS {
        assert!(rt; are_written(&rt, rt.alloc(), fails, count)?);
    }
    Ok(())
}
