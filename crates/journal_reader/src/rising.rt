ghost use Rattle.std.specs.Prelude.{◌≡◌, ◌↔◌, ℕ, List, IsTrue, map};
ghost use Rattle.std.specs.Cmp.Lexicographic.{slice_cmp};
ghost use Rattle.std.specs.List.Sorted.{IsStrictlySortedBy};
ghost use Rattle.std.specs.Ordering.{is_lt, nat_cmp};

use pg_text::{Path, Text};
use pg_value::Value;

/// What stands in a list by a key.
pub(crate) trait Keyed {
    ghost key: { Self → List ℕ };

    fn key(&self) -> &[u8]
        ensures { result.now ≡ key self.now };
}

impl Keyed for Path {
    ghost key = { λ path. path };

    fn key(&self) -> &[u8] {
        self.as_bytes()
    }
}

impl Keyed for (Text, Value) {
    ghost key = { λ entry. entry.0 };

    fn key(&self) -> &[u8] {
        self.0.as_bytes()
    }
}

/// Whether the keys rise in byte order.
pub(crate) fn are_rising<T: Keyed>(items: &[T]) -> bool
    ensures { IsTrue result ↔ IsStrictlySortedBy (slice_cmp nat_cmp) (map T.key items.now) }
{
    for at in 1..items.len() {
        if !stands_before(&items[at - 1], &items[at]) {
            return false;
        }
    }
    true
}

// Whether the key of an item is below that of another.
fn stands_before<T: Keyed>(item: &T, other: &T) -> bool
    ensures { result ≡ is_lt (slice_cmp nat_cmp (T.key item.now) (T.key other.now)) }
{
    item.key().cmp(other.key()).is_lt()
}
