use crate::keeping::{Ask, asked};
use crate::versions::of_changes;
use pg_text::{BadPath, Failure};
use std::alloc::Global;
use std::test::Fail;

const TAG: &str = "/WEB-INF/tags/t.tag";

// What each version of a tree changes, what is asked of a store one after the other, and a line for
// each answer.
const ROWS: [(&[&[&str]], &[Ask<'static>], &str); 3] = [
    // A publishing drops the pages that need what it changes.
    (
        &[&[TAG, "/p1.jsp", "/p2.jsp", "/p3.jsp"], &[TAG]],
        &[
            Ask::Keep("/p2.jsp", 0, &[(TAG, Some(1)), ("/p2.jsp", Some(1))]),
            Ask::Keep("/p1.jsp", 0, &[(TAG, Some(1)), ("/p1.jsp", Some(1))]),
            Ask::Keep("/p3.jsp", 0, &[("/p3.jsp", Some(1))]),
            Ask::Dirty(&[TAG]),
            Ask::Hit("/p1.jsp", 0),
            Ask::Drop(&[TAG]),
            Ask::Hit("/p3.jsp", 1),
            Ask::Hit("/p1.jsp", 1),
            Ask::Hit("/p1.jsp", 0),
            Ask::Keep("/p1.jsp", 1, &[(TAG, Some(2)), ("/p1.jsp", Some(1))]),
            Ask::Hit("/p1.jsp", 1),
        ],
        "kept true\nkept true\nkept true\n/p1.jsp /p2.jsp \nhit true\n/p1.jsp /p2.jsp \nhit true\nhit false\nhit false\nkept true\nhit true\n",
    ),
    // A value is found where its needs stand so.
    (
        &[&["/i.jspf", "/p.jsp"], &["/q.jsp"], &["/i.jspf"]],
        &[
            Ask::Keep("/p.jsp", 1, &[("/i.jspf", Some(1)), ("/none", None)]),
            Ask::Hit("/p.jsp", 0),
            Ask::Hit("/p.jsp", 2),
            Ask::Hit("/q.jsp", 0),
            Ask::Keep("/q.jsp", 2, &[("/i.jspf", Some(1))]),
            Ask::Keep("/r.jsp", 2, &[("/q.jsp", None)]),
            Ask::Hit("/q.jsp", 2),
            Ask::Drop(&["/none", "/q.jsp"]),
            Ask::Hit("/p.jsp", 0),
        ],
        "kept true\nhit true\nhit false\nhit false\nkept false\nkept false\nhit false\n/p.jsp \nhit false\n",
    ),
    // A value that is replaced needs what the new one needs.
    (
        &[&[TAG, "/i.jspf", "/p.jsp", "/q.jsp"]],
        &[
            Ask::Keep("/p.jsp", 0, &[(TAG, Some(1)), ("/p.jsp", Some(1))]),
            Ask::Keep(
                "/q.jsp",
                0,
                &[("/q.jsp", Some(1)), ("/i.jspf", Some(1)), (TAG, Some(1))],
            ),
            Ask::Keep("/p.jsp", 0, &[("/i.jspf", Some(1)), ("/p.jsp", Some(1))]),
            Ask::Dirty(&[TAG]),
            Ask::Dirty(&["/i.jspf", "/p.jsp"]),
            Ask::Drop(&["/q.jsp"]),
            Ask::Dirty(&["/i.jspf", TAG]),
            Ask::Hit("/p.jsp", 0),
            Ask::Drop(&["/none"]),
            Ask::Drop(&["/i.jspf"]),
            Ask::Hit("/p.jsp", 0),
        ],
        "kept true\nkept true\nkept true\n/q.jsp \n/p.jsp /q.jsp \n/q.jsp \n/p.jsp \nhit true\n\n/p.jsp \nhit false\n",
    ),
];

fn asks_told(alloc: Global, changes: &[&[&str]], asks: &[Ask]) -> Result<String, Failure<BadPath>> {
    let trees = of_changes(alloc, changes)?;
    asked(alloc, &trees, asks)
}

#[test]
fn what_is_kept_is_told(rt: HostRuntime) -> Result<(), Fail> {
    for &(changes, asks, wanted) in &ROWS {
        assert_eq!(rt; asks_told(rt.alloc(), changes, asks)?.as_str(), wanted);
    }
    Ok(())
}
