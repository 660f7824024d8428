// Codes, and whether they can be run.
use crate::accepted::is_accepted;
use std::test::Fail;

const CODES: [(&str, bool); 47] = [
    // Jumps lead to cells that carry what is left.
    ("0 Jump 0;0 End;0 End", true),
    ("0 Jump 1;0 End;0 End", true),
    ("0 Jump 2;0 End;0 End", false),
    ("0 Jump 18446744073709551615;0 End;0 End", false),
    ("0 Push;1 JumpIf 0;0 End;0 End", true),
    ("0 Push;1 JumpIf 1;0 End;0 End", true),
    ("0 Push;1 JumpIf 2;0 End;0 End", false),
    ("0 Push;1 JumpIf 18446744073709551615;0 End;0 End", false),
    ("0 JumpIf 0;0 End", false),
    ("0 Push;1 JumpNull 0;1 Pop;0 End", false),
    ("0 Push;1 JumpNull 1;1 Pop;0 End", true),
    ("0 Push;1 JumpNull 2;1 Pop;0 End", false),
    ("0 Ensure 0;0 End;0 End", true),
    ("0 Ensure 1;0 End;0 End", true),
    ("0 Ensure 2;0 End;0 End", false),
    ("0 Ensure 18446744073709551615;0 End;0 End", false),
    // Loops go back to their rounds.
    (
        "0 Push;1 LoopStart 1;l Jump 1;l Visit;l LoopNext 1;0 End",
        true,
    ),
    (
        "0 Push;1 LoopStart 1;l Jump 1;l Visit;l LoopNext 0;0 End",
        true,
    ),
    (
        "0 Push;1 LoopStart 1;l Jump 1;l Visit;l LoopNext 3;0 End",
        false,
    ),
    (
        "0 Push;1 LoopStart 1;l Jump 1;l Visit;l LoopNext 5;0 End",
        false,
    ),
    (
        "0 Push;1 LoopStart 2;l Jump 1;l Visit;l LoopNext 1;0 End",
        false,
    ),
    // What a call hands down begins with nothing open.
    ("0 Push;1 TagOfOne 1;0 End;0 Push;1 Pop;0 End", false),
    ("0 Push;1 TagOfOne 2;0 End;0 Push;1 Pop;0 End", true),
    ("0 Push;1 TagOfOne 3;0 End;0 Push;1 Pop;0 End", false),
    (
        "0 Push;1 TagOfOne 18446744073709551615;0 End;0 Push;1 Pop;0 End",
        false,
    ),
    ("0 Push;1 TagOfTwo 1;0 End;0 Push;1 Pop;0 End", false),
    ("0 Push;1 TagOfThree 0;0 End;0 Push;1 Pop;0 End", true),
    ("0 Push;1 TagOfAll 1;0 End;0 Push;1 Pop;0 End", false),
    ("0 Push;1 TagWithout 1;0 End;0 Push;1 Pop;0 End", true),
    ("0 Push;1 TagOfText 2;0 End;0 Push;1 Pop;0 End", false),
    // A code ends with nothing open.
    ("0 Push;1 Redirect", true),
    ("0 Push;1 Forward 1", false),
    ("0 Push;1 Forward 0", true),
    ("0 Push;1 End", false),
    ("0 Visit", false),
    ("1 Pop;0 End", false),
    ("", false),
    // Bodies are taken where they were kept.
    ("0 StartBody;k TakeBody;1 Pop;0 End", true),
    ("0 TakeBody;1 Pop;0 End", false),
    ("0 StartBody;k End", false),
    // Catches are closed where they were opened.
    ("0 CatchStart 3;t Visit;t CatchEnd;0 Push;1 Pop;0 End", true),
    (
        "0 CatchStart 2;t Visit;t CatchEnd;0 Push;1 Pop;0 End",
        false,
    ),
    (
        "0 CatchStart 9;t Visit;t CatchEnd;0 Push;1 Pop;0 End",
        false,
    ),
    ("0 CatchEnd;0 End", false),
    // Nothing is taken from below a catch.
    (
        "0 Push;1 CatchStart 4;1t Push;1t1 Pop;1t CatchEnd;1 Push;2 Pop;1 Pop;0 End",
        true,
    ),
    (
        "0 Push;1 CatchStart 4;1t Pop;1tz Push;1t CatchEnd;1 Push;2 Pop;1 Pop;0 End",
        false,
    ),
    (
        "0 Push;1 CatchStart 3;1t GetProperty;1t CatchEnd;1 Push;2 Pop;1 Pop;0 End",
        false,
    ),
];

#[test]
fn codes_that_can_be_run_are_accepted(rt: HostRuntime) -> Result<(), Fail> {
    for &(code, fits) in &CODES {
        assert!(rt; is_accepted(rt.alloc(), code)? == fits);
    }
    Ok(())
}
