ghost use Rattle.std.specs.Prelude.{◌≡◌, ◌+◌, length, nat_eq, IfOk, IfSome};
ghost use Rattle.std.specs.List.{ends_with, starts_with};
ghost use Rattle.std.specs.Str.{IsCharBoundary};
ghost use Rattle.jstl_functions.specs.Texts.{contains_ignoring_case, contains_part, index_of_part};
ghost use Rattle.jstl_functions.specs.Texts.{place_of_part};

use crate::letters::lower_case;
use crate::scalars::scalar_count;
use std::alloc::{AllocError, Global};

// What is found in a text.

// The byte at which a part first stands in a text, at which the text may be cut, and behind the
// part too.
pub(crate) fn place_of_part(text: &str, part: &str) -> Option<usize>
    ensures value { result ≡ place_of_part part.now text.now }
    ensures before { IfSome result (λ place. IsCharBoundary text.now place) }
    ensures behind { IfSome result (λ place. IsCharBoundary text.now (place + length part.now)) }
{
    text.find(part)
}

// Whether a text has a part, by its bytes; an empty part is in each text.
pub(crate) fn contains(text: &str, part: &str) -> bool
    ensures { result ≡ contains_part part.now text.now }
{
    place_of_part(text, part).is_some()
}

// Whether a text has a part where both are in lower case.
pub(crate) fn contains_ignoring_case(
    alloc: Global,
    text: &str,
    part: &str,
) -> Result<bool, AllocError>
    ensures { IfOk result (λ found. found ≡ contains_ignoring_case part.now text.now) }
{
    let text = lower_case(alloc, text)?;
    let part = lower_case(alloc, part)?;
    Ok(contains(text.as_str(), part.as_str()))
}

pub(crate) fn starts_with(text: &str, part: &str) -> bool
    ensures { result ≡ starts_with nat_eq text.now part.now }
{
    text.starts_with(part)
}

pub(crate) fn ends_with(text: &str, part: &str) -> bool
    ensures { result ≡ ends_with nat_eq text.now part.now }
{
    text.ends_with(part)
}

// How many characters stand before a part, or -1 where it is absent.
pub(crate) fn index_of_part(text: &str, part: &str) -> i64
    ensures { result ≡ index_of_part part.now text.now }
{
    match place_of_part(text, part) {
        Some(place) => {
            let (before, _) = text.split_at(place);
            scalar_count(before) as i64
        }
        None => -1,
    }
}
