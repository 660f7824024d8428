// Each script comes to what stands in it.
use crate::{journals, sessions, steps};
use site_core_tests::{played, session_id};
use std::test::Fail;

/// Lines for a new site whose journal weighs at most `limit`, for so many passes, once so many
/// sessions were made. Behind ` > ` a line has what it comes to.
#[derive(Clone, Copy)]
pub struct Script<'a> {
    pub limit: u64,
    pub passes: u8,
    pub sessions: u64,
    pub lines: &'a str,
}

#[test]
fn steps_come_to_what_is_told(rt: HostRuntime) -> Result<(), Fail> {
    for row in &steps::ROWS {
        let told = played(rt.alloc(), row.limit, row.passes, row.sessions, row.lines)?;
        assert_eq!(rt; told.as_str(), row.lines);
    }
    Ok(())
}

#[test]
fn sessions_come_to_what_is_told(rt: HostRuntime) -> Result<(), Fail> {
    for row in &sessions::ROWS {
        let told = played(rt.alloc(), row.limit, row.passes, row.sessions, row.lines)?;
        assert_eq!(rt; told.as_str(), row.lines);
    }
    Ok(())
}

#[test]
fn journals_come_to_what_is_told(rt: HostRuntime) -> Result<(), Fail> {
    for row in &journals::ROWS {
        let told = played(rt.alloc(), row.limit, row.passes, row.sessions, row.lines)?;
        assert_eq!(rt; told.as_str(), row.lines);
    }
    Ok(())
}

#[test]
fn ids_are_words_of_the_seed(rt: HostRuntime) -> Result<(), Fail> {
    for &(last, wanted) in &[
        (0, "0000000000000004bee7079f7a3851557c97ba980d082d73"),
        (1, "00000000000000042452eb3a9249f8ec8d829d9bddd4ceb1"),
    ] {
        assert_eq!(rt; session_id(rt.alloc(), last, 4)?.as_str(), wanted);
    }
    Ok(())
}
