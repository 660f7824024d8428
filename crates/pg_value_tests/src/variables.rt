use pg_value::{Failure, RunFault, Text, Value};
use scopes::{HeldScope, Scopes};
use std::alloc::{AllocError, Global};
use std::test::Fail;

fn name_of(alloc: Global, number: i64) -> Result<Text, AllocError> {
    Text::new(format!(in alloc; "v{number}")?)
}

// A page scope of so many variables, each under its number.
fn numbered(alloc: Global, count: i64) -> Result<Scopes, Failure<RunFault>> {
    let mut scopes = Scopes::new(alloc, None)?;
    for number in 0..count {
        let name = name_of(alloc, number)?;
        scopes.set(HeldScope::Page, &name, Value::Int(number))?;
    }
    Ok(scopes)
}

// What is left of so many variables without one of them: how many they are, and whether this one
// is there.
fn left(alloc: Global, count: i64, gone: &str) -> Result<(usize, bool), Failure<RunFault>> {
    let mut scopes = numbered(alloc, count)?;
    scopes.remove(HeldScope::Page, gone);
    let page = scopes.as_rec(HeldScope::Page)?;
    let Value::Rec(record) = &page else {
        return Ok((0, false));
    };
    Ok((record.len(), scopes.find(gone).is_some()))
}

#[test]
fn many_variables_are_kept_as_few_are(rt: HostRuntime) -> Result<(), Fail> {
    for &(count, gone, wanted) in &[(3, "v1", 2), (200, "v99", 199), (200, "v200", 200)] {
        assert!(rt; matches!(left(rt.alloc(), count, gone), Ok((left, false)) if left == wanted));
    }
    Ok(())
}
