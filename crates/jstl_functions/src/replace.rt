ghost use Rattle.std.specs.Prelude.{◌≡◌, ◌<◌, length};
ghost use Rattle.el_coercion.specs.Text.{made};
ghost use Rattle.jstl_functions.specs.Texts.{replaced, replaced_behind};
ghost use Rattle.pg_text.specs.Failure.{Answers};

use crate::within::is_too_long;
use el_coercion::made_text;
use pg_value::{Failure, RunFault, Text};
use std::alloc::Global;

// The text with each part that is `old`, from left to right, replaced. An empty `old` changes
// nothing. X20 is a text that is over the limits of a value.
pub(crate) fn replace(
    alloc: Global,
    text: &str,
    old: &str,
    new: &str,
) -> Result<Text, Failure<RunFault>>
    ensures { Answers (made (replaced old.now new.now text.now)) result }
{
    if old.is_empty() {
        return made_text(String::from_str(alloc, text)?);
    }
    replace_some(alloc, text, old, new)
}

// The same of an `old` that isn't empty. What was made so far and is too long is X20 at once, since
// what comes only makes it longer.
fn replace_some(alloc: Global, text: &str, old: &str, new: &str) -> Result<Text, Failure<RunFault>>
    requires { 0 < length old.now }
    ensures { Answers (made (replaced_behind old.now new.now 0 text.now)) result }
{
    let mut made = String::new(alloc);
    let mut rest = text;
    while let Some((before, behind)) = rest.split_once(old) {
        if is_too_long(made.as_str()) {
            return Err(Failure::Fault(RunFault::ValueTooLarge));
        }
        made.push_str(before)?;
        made.push_str(new)?;
        rest = behind;
    }
    made.push_str(rest)?;
    made_text(made)
}
