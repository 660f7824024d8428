use crate::accounts::{account, visited, worked};
use crate::journal::FIRST;
use crate::meeting::{Job, Watch};
use std::sync::atomic::Ordering;
use std::test::Fail;

// How many passes visit, with which session and how often each; and the account of the site: its
// entries, the fetches that found something, and the entries to which a second site gives the same
// answers; then a picture of both.
const VISITS: [(u8, &str, u32, &str); 2] = [
    (
        2,
        FIRST,
        500,
        "5005 1000 5005\n0 picture 0000000000000000ade0b876903df1a0e56a5d4028bd8653 > snapped 1001 0 1 1000\n0 picture 0000000000000000ade0b876903df1a0e56a5d4028bd8653 > snapped 1001 0 1 1000\n",
    ),
    (
        8,
        "",
        125,
        "5005 1000 5005\n0 picture 0000000000000000ade0b876903df1a0e56a5d4028bd8653 > snapped 1001 0 1 -\n0 picture 0000000000000000ade0b876903df1a0e56a5d4028bd8653 > snapped 1001 0 1 -\n",
    ),
];

#[test]
fn threads_visit_a_thousand_times(rt: HostRuntime) -> Result<(), Fail> {
    for &(passes, cookie, times, wanted) in &VISITS {
        let job = Job::Visits(times);
        let site = worked(&rt, rt.alloc(), passes, cookie, job, &Watch::new())?;
        assert_eq!(rt; account(rt.alloc(), site, passes)?.as_str(), wanted);
    }
    Ok(())
}

// How many passes do which job, with which session; and the entries from a place on. Of two passes
// one waits for the session that is held.
const ENTRIES: [(u8, &str, Job, usize, &str); 3] = [
    (
        1,
        FIRST,
        Job::Visits(10),
        51,
        "0 version 11, 0 dirty\n0 hit true\n0 done\n0 ended\n",
    ),
    (
        1,
        "",
        Job::Visits(1),
        5,
        "0 begun 1 1 -\n0 version 2, 0 dirty\n0 hit true\n0 done\n0 dropped\n",
    ),
    (
        2,
        FIRST,
        Job::Meeting,
        5,
        "0 begun 1 1 0\n0 ended\n1 begun 2 1 0\n1 ended\n",
    ),
];

#[test]
fn passes_leave_their_entries(rt: HostRuntime) -> Result<(), Fail> {
    for &(passes, cookie, job, from, wanted) in &ENTRIES {
        let site = worked(&rt, rt.alloc(), passes, cookie, job, &Watch::new())?;
        assert_eq!(rt; visited(rt.alloc(), site, from)?.as_str(), wanted);
    }
    Ok(())
}

// How often the sixty passes that wait come to the gate at most: twice for each request that holds
// the session before theirs, once to begin, and once to end.
const MOST_TRIES: u64 = 3_780;

// How often the visitor comes to the gate: to begin, and to end.
const ITS_TURNS: u64 = 2;

// It is answered before the pass that holds the session ends.
const FIRST_ENTRIES: &str = "0 begun 1 1 0\n61 begun 2 1 -\n61 dropped\n0 ended\n";

#[test]
fn another_visitor_is_answered_while_sixty_passes_wait_for_a_session(
    rt: HostRuntime,
) -> Result<(), Fail> {
    let watch = Watch::new();
    let site = worked(&rt, rt.alloc(), 62, FIRST, Job::Crowd, &watch)?;
    let entries = visited(rt.alloc(), site, 5)?;
    let is_first = entries.as_str().starts_with(FIRST_ENTRIES);
    let turns = watch.turns.load(Ordering::SeqCst);
    let tries = watch.tries.load(Ordering::SeqCst);
    assert!(rt; is_first && turns == ITS_TURNS && tries <= MOST_TRIES);
    Ok(())
}
