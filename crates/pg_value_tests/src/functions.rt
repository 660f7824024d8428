use crate::session::letters;
use jstl_functions::{Function, call};
use std::test::Fail;

#[test]
fn answers_are_measured(rt: HostRuntime) -> Result<(), Fail> {
    for &(count, fits) in &[(1_048_560, true), (1_048_561, false)] {
        let args = [letters(rt.alloc(), count)?];
        let made = call(rt.alloc(), Function::ToUpperCase, &args);
        assert_eq!(rt; made.is_ok(), fits);
    }
    Ok(())
}
