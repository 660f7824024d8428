ghost use Rattle.std.specs.Prelude.{◌≡◌, string_bytes, IfOk};
ghost use Rattle.std.specs.Str.{str_to_ascii_lowercase, str_to_ascii_uppercase};

use std::alloc::{AllocError, Global};

// The case of ASCII letters. All other characters stay.

pub(crate) fn lower_case(alloc: Global, text: &str) -> Result<String, AllocError>
    ensures { IfOk result (λ lower. string_bytes lower ≡ str_to_ascii_lowercase text.now) }
{
    let mut lower = String::from_str(alloc, text)?;
    lower.make_ascii_lowercase();
    Ok(lower)
}

pub(crate) fn upper_case(alloc: Global, text: &str) -> Result<String, AllocError>
    ensures { IfOk result (λ upper. string_bytes upper ≡ str_to_ascii_uppercase text.now) }
{
    let mut upper = String::from_str(alloc, text)?;
    upper.make_ascii_uppercase();
    Ok(upper)
}
