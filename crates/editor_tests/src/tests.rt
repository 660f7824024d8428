// Each editor is answered as is told.
use crate::connection::{Editing, status_line};
use crate::message::{Said, request};
use crate::talks::{Often, TALKS, Talk};
use http_in::Request;
use pg_text::Failure;
use site_core_tests::Unsound;
use std::alloc::{AllocError, Global};
use std::test::Fail;

// What the last of so many requests that are all the same is answered.
fn last(
    alloc: Global,
    editing: &mut Editing,
    request: &Request,
    times: u32,
) -> Result<String, AllocError> {
    for _time in 1..times {
        let _ = editing.taken(alloc, request);
    }
    status_line(alloc, &editing.taken(alloc, request))
}

// The same of a message about one file.
fn first_line(
    alloc: Global,
    editing: &mut Editing,
    often: &Often<'_>,
) -> Result<String, AllocError> {
    let body = "x".repeat(alloc, often.size)?;
    let said = Said(often.method, "/_editor/files/a", body.as_bytes());
    let request = request(alloc, &said)?;
    last(alloc, editing, &request, often.times)
}

fn talk_told_by(
    alloc: Global,
    editing: &mut Editing,
    talk: &Talk<'_>,
) -> Result<String, Failure<Unsound>> {
    let mut lines = match &talk.often {
        Some(often) => first_line(alloc, editing, often)?,
        None => String::new(alloc),
    };
    editing.tell(alloc, &mut lines, talk.said)?;
    Ok(lines)
}

fn talk_told(alloc: Global, talk: &Talk<'_>) -> Result<String, Failure<Unsound>> {
    let mut editing = Editing::open(alloc, talk.limit)?;
    talk_told_by(alloc, &mut editing, talk)
}

#[test]
fn editors_are_answered(rt: HostRuntime) -> Result<(), Fail> {
    for talk in &TALKS {
        assert_eq!(rt; talk_told(rt.alloc(), talk)?.as_str(), talk.told);
    }
    Ok(())
}
