ghost use Rattle.std.specs.Prelude.{◌≡◌, ◌==◌, ◌-◌, ◌^◌, min, length, map, IfOk, IfSome};
ghost use Rattle.pg_value.specs.Datum.{list, items_of};
ghost use Rattle.pg_value.specs.Depth.{depth_of};
ghost use Rattle.pg_value.specs.Value.{datum_of};
ghost use Rattle.pg_value.specs.Weight.{weight_of};

use crate::measures;
use crate::value::Value;
use std::alloc::{AllocError, Global};
use std::marker::Model;
use std::sync::Arc;

/// The items of a list, in order, shared by its copies, and beside them what the list weighs and
/// how deep it is. Contracts see the list of what the items are.
#[cycle(value)]
#[derive(Drop)]
pub struct Values {
    items: Arc<Vec<Value>>,
    weight: u64,
    depth: u32,
}

impl Model for Values {
    ghost use Rattle.std.specs.Prelude.{List, map};
    ghost use Rattle.pg_value.specs.Datum.{Datum, list, items_of};
    ghost use Rattle.pg_value.specs.DatumCode.{data_code};

    ghost Value = { List Datum };

    ghost coded = { data_code };

    ghost use Rattle.pg_value.specs.Measured.{IsMeasured};
    ghost use Rattle.pg_value.specs.Size.{list_size};
    ghost use Rattle.pg_value.specs.Value.{datum_of};

    ghost view = { λ v. map datum_of v.items.value.items };

    ghost invariant = { λ v. IsMeasured (list (items_of (map datum_of v.items.value.items))) v.weight v.depth };

    ghost size = { list_size };

    ghost use Rattle.pg_value.specs.SizeFalls.{items_below};

    ghost size_decreases = { λ v h. items_below v.items.value.items };
}

impl Values {
    /// These items, without a copy.
    pub fn new(items: Vec<Value>) -> Result<Self, AllocError>
        ensures { IfOk result (λ made. made ≡ map datum_of items.items) }
    {
        Ok(Values {
            weight: measures::weight_of_items(&items),
            depth: measures::depth_of_items(&items),
            items: Arc::new(*items.allocator(), items)?,
        })
    }

    /// Equal items, which are shared.
    pub fn copy(&self) -> Result<Self, AllocError>
        ensures { IfOk result (λ copy. copy ≡ self.now) }
    {
        Ok(Values {
            items: Arc::try_clone(&self.items)?,
            weight: self.weight,
            depth: self.depth,
        })
    }

    /// The weight of the list, which is kept.
    pub fn weight(&self) -> u64
        ensures { result ≡ min (weight_of (list (items_of self.now))) (2 ^ 64 - 1) }
    {
        self.weight
    }

    /// The depth of the list, which is kept.
    pub fn depth(&self) -> u32
        ensures { result ≡ min (depth_of (list (items_of self.now))) (2 ^ 32 - 1) }
    {
        self.depth
    }

    pub fn as_slice(&self) -> &[Value]
        ensures { map datum_of result.now ≡ self.now }
    {
        self.items.as_slice()
    }

    pub fn len(&self) -> usize
        ensures { result ≡ length self.now }
    {
        self.items.len()
    }

    pub fn is_empty(&self) -> bool
        ensures { result ≡ (length self.now == 0) }
    {
        self.items.is_empty()
    }

    // The items, where no copy shares them.
    pub(crate) fn into_sole(self) -> Option<Vec<Value>>
        ensures { IfSome result (λ items. map datum_of items.items ≡ self) }
    {
        Arc::into_inner(self.items)
    }

    /// The items, whose list is copied only where other values share it.
    pub fn into_vec(self) -> Result<Vec<Value>, AllocError>
        ensures { IfOk result (λ items. map datum_of items.items ≡ self) }
    {
        match Arc::try_unwrap(self.items) {
            Ok(items) => Ok(items),
            Err(shared) => copied(*shared.allocator(), shared.as_slice()),
        }
    }
}

// Equal items.
fn copied(alloc: Global, items: &[Value]) -> Result<Vec<Value>, AllocError>
    ensures { IfOk result (λ copy. copy.items ≡ items.now) }
{
    let mut copy = Vec::with_capacity(alloc, items.len())?;
    for item in items {
        copy.push(item.copy()?)?;
    }
    Ok(copy)
}
