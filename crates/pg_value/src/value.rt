ghost use Rattle.std.specs.Prelude.{◌≡◌, IfOk};

use crate::entries::Entries;
use crate::limits::MAX_DEPTH;
use crate::record::Record;
use crate::values::Values;
use crate::{equality, measures};
use pg_text::Text;
use std::alloc::AllocError;

/// A value of the page language. Contracts compare two values by `≡`, which is equality of their
/// whole content.
#[cycle(value)]
pub enum Value {
    Null,
    Bool(bool),
    Int(i64),
    Text(Text),
    List(Values),
    /// A record: values under distinct keys.
    Rec(Record),
}

impl Drop for Value {
    // Goes on with the heaviest item in a loop, since a value that was read may be of any depth.
    // Each of the others is at most half as heavy as the whole, so that dropping them goes down the
    // stack at most once for each bit of a weight. Entries in blocks are dropped as they come,
    // since what is read has none: it was put together of values within the limit.
    #[cycle(value)]
    fn drop(mut self) {
        loop {
            match self {
                Value::List(items) => {
                    if items.depth() <= MAX_DEPTH {
                        return;
                    }
                    let Some(mut items) = items.into_sole() else {
                        return;
                    };
                    let Some(place) = measures::heaviest_item(&items) else {
                        return;
                    };
                    self = items.swap_remove(place);
                }
                Value::Rec(entries) => {
                    if entries.depth() <= MAX_DEPTH {
                        return;
                    }
                    let mut list = match entries.into_sole() {
                        Some(Entries::Few(list)) => list,
                        Some(Entries::Many(_blocks)) => return,
                        None => return,
                    };
                    let Some(place) = measures::heaviest_entry(&list) else {
                        return;
                    };
                    self = list.swap_remove(place).1;
                }
                Value::Null => return,
                Value::Bool(_truth) => return,
                Value::Int(_number) => return,
                Value::Text(_text) => return,
            }
        }
    }
}

impl PartialEq for Value {
    ghost use Rattle.std.specs.Prelude.{◌≡◌, ◌↔◌, IsTrue};
    ghost use Rattle.std.specs.Cmp.{partial_equiv_from_equiv};
    ghost use Rattle.pg_value.specs.Equality.{is_same};
    ghost use Rattle.pg_value.specs.EqualityLaws.{value_equivalence};
    ghost use Rattle.pg_value.specs.Value.{datum_of};

    ghost eq = { λ a b. is_same (datum_of a) (datum_of b) };

    ghost laws = { partial_equiv_from_equiv value_equivalence };

    fn eq(&self, other: &Value) -> bool
        ensures test { result ≡ is_same (datum_of self.now) (datum_of other.now) }
        ensures same { IsTrue result ↔ (self.now ≡ other.now) }
    {
        equality::is_equal(self, other)
    }
}

impl Eq for Value {
    ghost use Rattle.pg_value.specs.EqualityLaws.{value_equivalence};

    ghost laws = { value_equivalence };
}

impl Value {
    /// An equal value, which shares the content.
    pub fn copy(&self) -> Result<Self, AllocError>
        ensures { IfOk result (λ copy. copy ≡ self.now) }
    {
        match self {
            Value::Null => Ok(Value::Null),
            Value::Bool(truth) => Ok(Value::Bool(*truth)),
            Value::Int(number) => Ok(Value::Int(*number)),
            Value::Text(text) => Ok(Value::Text(text.copy()?)),
            Value::List(items) => Ok(Value::List(items.copy()?)),
            Value::Rec(entries) => Ok(Value::Rec(entries.copy()?)),
        }
    }
}
