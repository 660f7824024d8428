ghost use Rattle.std.specs.Prelude.{◌≡◌, ◌<◌, ◌-◌, ◌^◌, ℕ, min, length, map, take, drop};
ghost use Rattle.std.specs.Prelude.{option_map, true, IfOk, OnOk, OnErr};
ghost use Rattle.pg_value.specs.Attrs.{entry_at, with_entry, with_value_at, without_entry};
ghost use Rattle.pg_value.specs.Datum.{rec, entries_of};
ghost use Rattle.pg_value.specs.Depth.{depth_of};
ghost use Rattle.pg_value.specs.Measured.{IsMeasured};
ghost use Rattle.pg_value.specs.ReadEntries.{AreKept, in_entries};
ghost use Rattle.pg_value.specs.Value.{datum_of, entry_of};
ghost use Rattle.pg_value.specs.Weight.{weight_of};

use crate::block::Block;
use crate::value::Value;
use crate::{attrs, blocks, measures};
use pg_text::Text;
use std::alloc::{AllocError, Global};

// A list of so many entries comes into blocks before one more does.
const MANY: usize = 256;

// The entries of a record: few in one list, of which a change copies all where other records share
// it, and many in blocks, of which a change copies one.
#[cycle(value)]
#[derive(Drop)]
pub(crate) enum Entries {
    Few(Vec<(Text, Value)>),
    Many(Vec<Block>),
}

impl Entries {
    pub fn allocator(&self) -> Global {
        match self {
            Entries::Few(list) => *list.allocator(),
            Entries::Many(blocks) => *blocks.allocator(),
        }
    }

    // Equal entries, where those of blocks are shared.
    pub fn copy(&self) -> Result<Self, AllocError>
        requires { AreKept self.now }
        ensures same { IfOk result (λ copy. in_entries copy ≡ in_entries self.now) }
        ensures kept { IfOk result (λ copy. AreKept copy) }
    {
        match self {
            Entries::Few(list) => Ok(Entries::Few(attrs::copied(*list.allocator(), list)?)),
            Entries::Many(blocks) => {
                Ok(Entries::Many(blocks::copied(*blocks.allocator(), blocks)?))
            }
        }
    }

    // The entries in one list.
    pub fn listed(&self) -> Result<Vec<(Text, Value)>, AllocError>
        ensures { IfOk result (λ listed. map entry_of listed.items ≡ in_entries self.now) }
    {
        match self {
            Entries::Few(list) => attrs::copied(*list.allocator(), list),
            Entries::Many(blocks) => blocks::listed(*blocks.allocator(), blocks),
        }
    }

    pub fn len(&self) -> usize
        requires { AreKept self.now }
        ensures len { result ≡ length (in_entries self.now) }
        ensures few { result < 2 ^ 63 }
    {
        match self {
            Entries::Few(list) => list.as_slice().len(),
            Entries::Many(blocks) => blocks::count(blocks),
        }
    }

    // The weight and the depth of the record.
    pub fn measures(&self) -> (u64, u32)
        ensures weight { result.0 ≡ min (weight_of (rec (entries_of (in_entries self.now)))) (2 ^ 64 - 1) }
        ensures depth { result.1 ≡ min (depth_of (rec (entries_of (in_entries self.now)))) (2 ^ 32 - 1) }
    {
        match self {
            Entries::Few(list) => measures::measures_of_entries(list),
            Entries::Many(blocks) => blocks::measures(blocks),
        }
    }

    // `true` where weight and depth surely stay as they are when this value is put at this place;
    // `false` promises nothing.
    #[inline(always)]
    pub fn keeps_measures(&self, at: usize, value: &Value) -> bool
        requires { at < length (in_entries self.now) }
        ensures { result ≡ true → (w d : ℕ) → IsMeasured (rec (entries_of (in_entries self.now))) w d
            → IsMeasured (rec (entries_of (with_value_at (in_entries self.now) at (datum_of value.now)))) w d }
    {
        match self {
            Entries::Few(list) => measures::keeps_measures(list, at, value),
            Entries::Many(_) => false,
        }
    }

    // What stands under the key.
    #[inline(always)]
    pub fn find(&self, key: &str) -> Option<&Value>
        requires { AreKept self.now }
        ensures { option_map (λ value. datum_of value.now) result ≡ entry_at key.now (in_entries self.now) }
    {
        match self {
            Entries::Few(list) => attrs::find(list, key),
            Entries::Many(blocks) => blocks::find(blocks, key),
        }
    }

    // The entries from this place on, as far as they stand in one list.
    pub fn from(&self, place: usize) -> &[(Text, Value)]
        ensures same { map entry_of result.now ≡ take (length result.now) (drop place (in_entries self.now)) }
        ensures some { place < length (in_entries self.now) → 0 < length result.now }
    {
        match self {
            Entries::Few(list) => attrs::from(list, place),
            Entries::Many(blocks) => blocks::from(blocks, place),
        }
    }

    // Puts the value under the key, in the place of what stood there.
    pub fn put(&mut self, key: Text, value: Value) -> Result<(), AllocError>
        requires { AreKept self.old }
        ensures ok { OnOk result (in_entries self.new ≡ with_entry (in_entries self.old) key (datum_of value)) }
        ensures err { OnErr result (in_entries self.new ≡ in_entries self.old) }
        ensures kept { AreKept self.new }
    {
        self.make_room()?;
        match self {
            Entries::Few(list) => attrs::put(list, key, value),
            Entries::Many(blocks) => blocks::put(blocks, key, value),
        }
    }

    // Many entries come into blocks.
    fn make_room(&mut self) -> Result<(), AllocError>
        requires { AreKept self.old }
        ensures same { in_entries self.new ≡ in_entries self.old }
        ensures kept { AreKept self.new }
    {
        let Entries::Few(list) = &*self else {
            return Ok(());
        };
        if list.len() < MANY {
            return Ok(());
        }
        let blocks = blocks::cut(*list.allocator(), list)?;
        *self = Entries::Many(blocks);
        Ok(())
    }

    // Puts the value in the place of the one at this place.
    #[inline(always)]
    pub fn set_at(&mut self, at: usize, value: Value) -> Result<(), AllocError>
        requires within { at < length (in_entries self.old) }
        requires kept { AreKept self.old }
        ensures ok { OnOk result (in_entries self.new ≡ with_value_at (in_entries self.old) at (datum_of value)) }
        ensures err { OnErr result (in_entries self.new ≡ in_entries self.old) }
        ensures kept { AreKept self.new }
    {
        match self {
            Entries::Few(list) => {
                attrs::set_at(list, at, value);
                Ok(())
            }
            Entries::Many(blocks) => blocks::set_at(blocks, at, value),
        }
    }

    // Takes out what stands under the key.
    pub fn take_out(&mut self, key: &str) -> Result<(), AllocError>
        requires { AreKept self.old }
        ensures ok { OnOk result (in_entries self.new ≡ without_entry (in_entries self.old) key.now) }
        ensures err { OnErr result (in_entries self.new ≡ in_entries self.old) }
        ensures kept { AreKept self.new }
    {
        match self {
            Entries::Few(list) => {
                attrs::take_out(list, key);
                Ok(())
            }
            Entries::Many(blocks) => blocks::take_out(blocks, key),
        }
    }
}
