// The names of contexts, and to which context a target belongs.
use context_names::read_names;
use std::alloc::{AllocError, Global};
use std::test::Fail;

/// Words of names, targets, and for each the place of its context with where the target goes on
/// inside it.
const TARGETS: [(&str, &str, &str); 16] = [
    ("a,b", "/a/x.jsp", "0 2"),
    ("a,b", "/b/_editor/publish?base=1", "1 2"),
    ("a,b", "/c/x.jsp", "none"),
    ("a,b", "/a", "none"),
    ("a,b", "/", "none"),
    ("a,b", "/a/", "0 2"),
    ("a,b", "/A/x.jsp", "none"),
    ("a,b", "/a?x=/b", "none"),
    ("a,b", "//a/x.jsp", "none"),
    ("a,ab", "/ab/x.jsp", "1 3"),
    ("ab,a", "/a/x.jsp", "1 2"),
    ("shop1,0", "/shop1/0/x.jsp", "0 6"),
    ("a,a", "/a/x.jsp", "no names"),
    ("a,", "/a/x.jsp", "no names"),
    ("", "/a/x.jsp", "no names"),
    ("a,B", "/a/x.jsp", "no names"),
];

const LONG: &str = "abcdefghijklmnopqrstuvwxyz012345";

const SIXTEEN: &str = "a,b,c,d,e,f,g,h,i,j,k,l,m,n,o,p";

// Where the target belongs among contexts with the names that the word tells.
fn target_told(alloc: Global, word: &str, target: &str) -> Result<String, AllocError> {
    let Some(names) = read_names(alloc, word)? else {
        return String::from_str(alloc, "no names");
    };
    match names.context_of(target.as_bytes()) {
        Some((context, cut)) => format!(in alloc; "{context} {cut}"),
        None => String::from_str(alloc, "none"),
    }
}

#[test]
fn a_target_belongs_to_the_context_that_it_names(rt: HostRuntime) -> Result<(), Fail> {
    for &(word, target, wanted) in &TARGETS {
        let text = target_told(rt.alloc(), word, target)?;
        assert_eq!(rt; text.as_str(), wanted);
    }
    Ok(())
}

#[test]
fn names_have_their_limits(rt: HostRuntime) -> Result<(), Fail> {
    for &(word, more, wanted) in &[
        (LONG, "", "none"),
        (LONG, "6", "no names"),
        (SIXTEEN, "", "none"),
        (SIXTEEN, ",q", "no names"),
    ] {
        let mut names = String::from_str(rt.alloc(), word)?;
        names.push_str(more)?;
        let text = target_told(rt.alloc(), names.as_str(), "/none/x.jsp")?;
        assert_eq!(rt; text.as_str(), wanted);
    }
    Ok(())
}
