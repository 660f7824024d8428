// Codes one behind the other.
ghost use Rattle.std.specs.Prelude.{◌≡◌, ◌++◌, IfOk};

use page_code::Code;
use std::alloc::AllocError;

/// A code, and another behind it.
pub fn joined(first: Code, second: Code) -> Result<Code, AllocError>
    ensures { IfOk result (λ code. code ≡ first ++ second) }
{
    let mut code = first;
    code.join(second)?;
    Ok(code)
}
