use crate::accepted::is_accepted;
use std::alloc::{AllocError, Global};
use std::test::Fail;

// What pushes so many values, and what drops so many.
const PUSHES: [&str; 5] = [
    "",
    "0 Push;",
    "0 Push;1 Push;",
    "0 Push;1 Push;2 Push;",
    "0 Push;1 Push;2 Push;3 Push;",
];

const POPS: [&str; 4] = ["", "1 Pop;", "2 Pop;1 Pop;", "3 Pop;2 Pop;1 Pop;"];

// A code that pushes so many values, does the instruction, and drops so many.
fn around(
    alloc: Global,
    pushed: usize,
    instruction: &str,
    dropped: usize,
) -> Result<String, AllocError> {
    let pushes = PUSHES.get(pushed).copied().unwrap_or("?");
    let pops = POPS.get(dropped).copied().unwrap_or("?");
    format!(in alloc; "{pushes}{pushed} {instruction};{pops}0 End")
}

// Whether an instruction takes and leaves so many values.
fn fits(alloc: Global, instruction: &str, takes: usize, leaves: usize) -> Result<bool, Fail> {
    is_accepted(alloc, around(alloc, takes, instruction, leaves)?.as_str())
}

// Whether it does so, and is refused with a value more behind it, or one less before it.
fn fits_exactly(
    alloc: Global,
    instruction: &str,
    takes: usize,
    leaves: usize,
) -> Result<bool, Fail> {
    let as_told = fits(alloc, instruction, takes, leaves)?;
    let with_more = fits(alloc, instruction, takes, leaves.saturating_add(1))?;
    let with_less = takes > 0 && fits(alloc, instruction, takes - 1, leaves)?;
    Ok(as_told && !with_more && !with_less)
}

// Instructions, how many values each takes, and how many it leaves.
const INSTRUCTIONS: [(&str, usize, usize); 31] = [
    ("Write", 0, 0),
    ("Put", 1, 0),
    ("PutEscaped", 1, 0),
    ("Visit", 0, 0),
    ("Push", 0, 1),
    ("Find", 0, 1),
    ("Implicit", 0, 1),
    ("Index", 2, 1),
    ("HeaderIndex", 1, 1),
    ("ScopeIndex", 1, 1),
    ("Unary", 1, 1),
    ("Binary", 2, 1),
    ("Coerce", 1, 1),
    ("MakeList", 3, 1),
    ("MakeMap", 4, 1),
    ("Concat", 0, 1),
    ("Call", 3, 1),
    ("Url", 3, 1),
    ("Pop", 1, 0),
    ("SetVar", 1, 0),
    ("RemoveVar", 0, 0),
    ("RemoveAll", 0, 0),
    ("SetEntry", 2, 0),
    ("SetProperty", 1, 0),
    ("SetParameters", 0, 0),
    ("GetProperty", 1, 1),
    ("Take 1", 2, 2),
    ("Body", 0, 0),
    ("Fragment", 0, 0),
    ("Include 1", 3, 0),
    ("Import", 1, 0),
];

#[test]
fn instructions_take_and_leave_values(rt: HostRuntime) -> Result<(), Fail> {
    for &(instruction, takes, leaves) in &INSTRUCTIONS {
        assert!(rt; fits_exactly(rt.alloc(), instruction, takes, leaves)?);
    }
    Ok(())
}
