ghost use Rattle.std.specs.Prelude.{◌≡◌};
ghost use Rattle.std.specs.Bool.{Decides};

use crate::same::Same;
use packed_entries::History;

/// Whether two histories have the same entries, in the same order.
pub fn same_entries(one: &History, other: &History) -> bool
    ensures { Decides result (one.now.items ≡ other.now.items) }
{
    if one.len() != other.len() {
        return false;
    }
    for place in 0..one.len() {
        let (Some(entry), Some(other_entry)) = (one.get(place), other.get(place)) else {
            return false;
        };
        if !entry.is_same(other_entry) {
            return false;
        }
    }
    true
}
