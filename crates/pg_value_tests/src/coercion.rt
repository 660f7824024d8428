use el_coercion::to_text;
use pg_value::{Failure, RunFault, Text, Value, Values};
use std::alloc::{AllocError, Global};

// A list of one text of so many letters.
fn long_list(alloc: Global, letters: usize) -> Result<Value, AllocError> {
    let text = "a".repeat(alloc, letters)?;
    let mut items = Vec::new(alloc);
    items.push(Value::Text(Text::new(text)?))?;
    Ok(Value::List(Values::new(items)?))
}

// How many bytes the text of a list of one text of so many letters has, or its fault.
fn made(alloc: Global, letters: usize) -> Result<usize, Failure<RunFault>> {
    let list = long_list(alloc, letters)?;
    let text = to_text(alloc, &list)?;
    Ok(text.len())
}

#[test]
fn a_made_text_is_measured(rt: HostRuntime) {
    for &(letters, ref wanted) in &[
        (1_048_558, Ok(1_048_560)),
        (1_048_559, Err(Failure::Fault(RunFault::ValueTooLarge))),
    ] {
        assert!(rt; made(rt.alloc(), letters) == *wanted);
    }
}
