use crate::lists::are_same;
use crate::same::Same;
use pg_text::Text;
use pg_value::{Attrs, Value};

impl Same for (Text, Value) {
    fn is_same(&self, other: &(Text, Value)) -> bool {
        self.0.is_same(&other.0) && self.1.is_same(&other.1)
    }
}

impl Same for Attrs {
    fn is_same(&self, other: &Attrs) -> bool {
        are_same(self.as_slice(), other.as_slice())
    }
}
