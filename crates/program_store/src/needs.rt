ghost use Rattle.std.specs.Prelude.{◌≡◌, IfOk};
ghost use Rattle.program_store.specs.Store.{names_in};

use pg_text::Names;
use source_tree::Need;
use std::alloc::{AllocError, Global};

/// The names of needs, in byte order.
pub(crate) fn names_of(alloc: Global, needs: &[Need]) -> Result<Names, AllocError>
    ensures { IfOk result (λ names. names ≡ names_in needs.now) }
{
    let mut names = Names::empty(alloc);
    for need in needs {
        names.insert(need.name.copy()?)?;
    }
    Ok(names)
}
