use crate::checked::{Outside, check_told};
use std::test::Fail;

#[test]
fn other_words_are_refused(rt: HostRuntime) -> Result<(), Fail> {
    let outside = Outside {
        piece: 1,
        read_fails: &[],
        write_fails: &[],
    };
    for &words in &[
        [].as_slice(),
        &["check"],
        &["check", "/a.jsp", "/b.jsp"],
        &["Check", "/a.jsp"],
        &["check", "-a.jsp"],
        &["check", "/"],
        &["check", "/a/"],
        &["check", "/../a.jsp"],
        &["check", ""],
        &["check", "/a\\b.jsp"],
    ] {
        let told = check_told(rt.alloc(), words, b"x", &outside)?;
        assert_eq!(rt; told.as_str(), "1 ");
    }
    Ok(())
}

#[test]
fn faults_of_the_outside_are_told(rt: HostRuntime) -> Result<(), Fail> {
    for &(read_fails, write_fails, wanted) in &[
        ([0].as_slice(), [].as_slice(), "3 "),
        // The read behind the last byte may fail, too.
        (&[5], &[], "3 "),
        (&[6], &[], "0 ok\n"),
        (&[], &[0], "4 "),
        (&[], &[1], "0 ok\n"),
    ] {
        let outside = Outside {
            piece: 1,
            read_fails,
            write_fails,
        };
        let told = check_told(rt.alloc(), &["check", "/a.jsp"], b"hello", &outside)?;
        assert_eq!(rt; told.as_str(), wanted);
    }
    Ok(())
}
