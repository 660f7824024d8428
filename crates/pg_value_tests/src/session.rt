use pg_value::{Failure, RunFault, Text, Value};
use scopes::{HeldScope, Scopes};
use std::alloc::{AllocError, Global};
use std::test::Fail;

// The fault of what was tried, where it has one.
fn fault(answer: Result<(), Failure<RunFault>>) -> Option<RunFault> {
    match answer {
        Err(Failure::Fault(fault)) => Some(fault),
        _ => None,
    }
}

/// A text of so many letters.
pub fn letters(alloc: Global, count: usize) -> Result<Value, AllocError> {
    let text = "a".repeat(alloc, count)?;
    Ok(Value::Text(Text::new(text)?))
}

#[test]
fn a_session_keeps_so_much(rt: HostRuntime) -> Result<(), Fail> {
    let name = Text::copy_of(rt.alloc(), "a")?;
    let mut scopes = Scopes::new(rt.alloc(), None)?;
    scopes.start_session();
    let mut are_so = true;
    for &(count, wanted) in &[
        (65_488, Some(RunFault::SessionTooLarge)),
        (65_487, None),
        (65_488, Some(RunFault::SessionTooLarge)),
        (65_487, None),
    ] {
        let text = letters(rt.alloc(), count)?;
        let found = fault(scopes.set(HeldScope::Session, &name, text));
        are_so = are_so && found == wanted;
    }
    let weight = scopes.into_session().weight();
    assert!(rt; are_so && weight == 65_536);
    Ok(())
}
