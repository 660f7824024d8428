ghost use Rattle.std.specs.Prelude.{◌≡◌};
ghost use Rattle.std.specs.Bool.{Decides};

use crate::lists::are_same;
use pg_text::{Names, Path, Text};
use pg_value::Value;

/// A type whose values can be compared in their whole content.
pub trait Same {
    /// Whether the whole content is the same.
    fn is_same(&self, other: &Self) -> bool
        ensures { Decides result (self.now ≡ other.now) };
}

impl Same for u64 {
    fn is_same(&self, other: &u64) -> bool {
        *self == *other
    }
}

impl Same for Text {
    fn is_same(&self, other: &Text) -> bool {
        self.as_bytes() == other.as_bytes()
    }
}

impl Same for Path {
    fn is_same(&self, other: &Path) -> bool {
        self.as_bytes() == other.as_bytes()
    }
}

impl Same for Value {
    fn is_same(&self, other: &Value) -> bool {
        *self == *other
    }
}

impl Same for Names {
    fn is_same(&self, other: &Names) -> bool {
        are_same(self.as_slice(), other.as_slice())
    }
}

impl<T: Same> Same for Option<T> {
    fn is_same(&self, other: &Option<T>) -> bool {
        match (self, other) {
            (Some(one), Some(other)) => one.is_same(other),
            (None, None) => true,
            _ => false,
        }
    }
}
