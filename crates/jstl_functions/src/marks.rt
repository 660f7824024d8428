ghost use Rattle.std.specs.Prelude.{◌≡◌, ℕ, IfOk};
ghost use Rattle.std.specs.List.Sorted.{IsSorted};
ghost use Rattle.std.specs.Ordering.{nat_cmp};
ghost use Rattle.std.specs.Str.{chars};
ghost use Rattle.jstl_functions.specs.Texts.{is_delimiter, is_one_of};

use std::alloc::{AllocError, Global};

// The characters at which a text is cut, in order, so that each is found fast among many.
pub(crate) fn marks_of(alloc: Global, delimiters: &str) -> Result<Vec<char>, AllocError>
    ensures order { IfOk result (λ marks. IsSorted nat_cmp marks.items) }
    ensures same { IfOk result (λ marks. (c : ℕ) → is_one_of marks.items c ≡ is_delimiter delimiters.now c) }
{
    let mut marks = characters(alloc, delimiters)?;
    marks.sort_unstable();
    Ok(marks)
}

fn characters(alloc: Global, text: &str) -> Result<Vec<char>, AllocError>
    ensures { IfOk result (λ made. made.items ≡ chars text.now) }
{
    text.chars().collect(alloc)
}

// Whether the character is one of these.
pub(crate) fn is_mark(marks: &[char], c: char) -> bool
    requires { IsSorted nat_cmp marks.now }
    ensures { result ≡ is_one_of marks.now c }
{
    marks.binary_search(&c).is_ok()
}
