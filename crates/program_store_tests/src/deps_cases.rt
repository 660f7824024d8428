use crate::wants::{Want, wants_told};
use std::test::Fail;

// What is wanted of dependencies one after the other, and a line for each answer.
const ROWS: [(&[Want<'static>], &str); 3] = [
    // Users of a shared part.
    (
        &[
            Want::Add("/p2.jsp", &["/p2.jsp", "/i.jspf"]),
            Want::Add("/p1.jsp", &["/i.jspf", "/p1.jsp"]),
            Want::Users("/i.jspf"),
            Want::Remove("/p1.jsp"),
            Want::Users("/i.jspf"),
            Want::Users("/p1.jsp"),
            Want::Users("/q"),
        ],
        "added\nadded\n/p1.jsp /p2.jsp \nremoved\n/p2.jsp \nnone\nnone\n",
    ),
    // A changed tag file makes its pages dirty.
    (
        &[
            Want::Add("/p2.jsp", &["/WEB-INF/tags/t.tag", "/p2.jsp"]),
            Want::Add("/p1.jsp", &["/WEB-INF/tags/t.tag", "/p1.jsp"]),
            Want::Add("/p3.jsp", &["/p3.jsp"]),
            Want::Dirty(&["/WEB-INF/tags/t.tag", "/none"]),
            Want::Dirty(&["/none"]),
            Want::Add("/p1.jsp", &["/p1.jsp"]),
            Want::Dirty(&["/WEB-INF/tags/t.tag", "/p3.jsp"]),
        ],
        "added\nadded\nadded\n/p1.jsp /p2.jsp \n\nadded\n/p2.jsp /p3.jsp \n",
    ),
    // A path that needs other names is with the users of these.
    (
        &[
            Want::Add("/p.jsp", &["/a", "/b", "/c"]),
            Want::Add("/q.jsp", &["/b"]),
            Want::Add("/p.jsp", &["/b", "/d"]),
            Want::Users("/a"),
            Want::Users("/b"),
            Want::Users("/c"),
            Want::Users("/d"),
            Want::Dirty(&["/a", "/b", "/c", "/d"]),
            Want::Remove("/q.jsp"),
            Want::Remove("/none"),
            Want::Remove("/p.jsp"),
            Want::Users("/b"),
            Want::Dirty(&["/b", "/d"]),
        ],
        "added\nadded\nadded\nnone\n/p.jsp /q.jsp \nnone\n/p.jsp \n/p.jsp /q.jsp \nremoved\nremoved\nremoved\nnone\n\n",
    ),
];

#[test]
fn dependencies_are_told(rt: HostRuntime) -> Result<(), Fail> {
    for &(wants, wanted) in &ROWS {
        assert_eq!(rt; wants_told(rt.alloc(), wants)?.as_str(), wanted);
    }
    Ok(())
}
