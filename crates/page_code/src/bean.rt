ghost use Rattle.std.specs.Prelude.{◌≡◌, false, SomeIff};
ghost use Rattle.pg_value.specs.Limits.{is_over};
ghost use Rattle.pg_value.specs.Value.{datum_of};

use pg_value::{Value, is_too_large};
use std::marker::Model;

/// What a bean is made of: a value that keeps the limits of a value, so that application scope can
/// take it. Contracts see the value.
#[derive(Drop)]
pub struct Bean {
    value: Value,
}

impl Model for Bean {
    ghost use Rattle.std.specs.Prelude.{◌≡◌, false};
    ghost use Rattle.pg_value.specs.declared.value.Value.{Value as TheValue};

    ghost Value = { TheValue };

    ghost use Rattle.pg_value.specs.DatumCode.{data_code, datum_code, entries_code};
    ghost use Rattle.std.specs.Coded.{codes};

    ghost coded = { Prim.hlevel (codes, entries_code, data_code, datum_code) };

    ghost use Rattle.pg_value.specs.Limits.{is_over};
    ghost use Rattle.pg_value.specs.Value.{datum_of};

    ghost view = { λ b. b.value };

    ghost invariant = { λ b. is_over (datum_of b.value) ≡ false };
}

impl Bean {
    /// The bean of this value, or None where the value is over the limits.
    pub fn new(value: Value) -> Option<Self>
        ensures { SomeIff result (is_over (datum_of value) ≡ false) value }
    {
        if is_too_large(&value) {
            None
        } else {
            Some(Bean { value })
        }
    }

    pub fn value(&self) -> &Value
        ensures same { result.now ≡ self.now }
        ensures fits { is_over (datum_of self.now) ≡ false }
    {
        &self.value
    }
}
