ghost use Rattle.std.specs.Prelude.{◌≡◌, ◌<◌, ◌≤◌, ◌++◌, ◌-◌, ◌^◌, min, length, map, option_map};
ghost use Rattle.std.specs.Prelude.{IfOk};
ghost use Rattle.pg_value.specs.Attrs.{AreInOrder, entry_at, with_entry, without_entry};
ghost use Rattle.pg_value.specs.Datum.{rec, entries_of};
ghost use Rattle.pg_value.specs.Depth.{depth_of};
ghost use Rattle.pg_value.specs.ReadEntries.{is_behind};
ghost use Rattle.pg_value.specs.Value.{datum_of, entry_of};
ghost use Rattle.pg_value.specs.Weight.{weight_of};

use crate::value::Value;
use crate::{attrs, measures};
use pg_text::Text;
use std::alloc::AllocError;
use std::marker::Model;
use std::sync::Arc;

// Entries that stand side by side in records of many, which share them, and beside them what a
// record of these alone weighs and how deep it is. Contracts see the list of the entries, as of an
// `Attrs`.
#[cycle(value)]
#[derive(Drop)]
pub(crate) struct Block {
    entries: Arc<Vec<(Text, Value)>>,
    weight: u64,
    depth: u32,
}

impl Model for Block {
    ghost use Rattle.std.specs.Prelude.{List, ℕ, map};
    ghost use Rattle.pg_value.specs.Datum.{Datum, rec, entries_of};
    ghost use Rattle.pg_value.specs.DatumCode.{entries_code};

    ghost Value = { List (List ℕ × Datum) };

    ghost coded = { entries_code };

    ghost use Rattle.pg_value.specs.Attrs.{AreInOrder};
    ghost use Rattle.pg_value.specs.Measured.{IsMeasured};
    ghost use Rattle.pg_value.specs.Size.{block_size};
    ghost use Rattle.pg_value.specs.Value.{entry_of};

    ghost view = { λ b. map entry_of b.entries.value.items };

    ghost invariant = { λ b. AreInOrder (map entry_of b.entries.value.items)
        × IsMeasured (rec (entries_of (map entry_of b.entries.value.items))) b.weight b.depth };

    ghost size = { block_size };

    ghost use Rattle.pg_value.specs.SizeFalls.{block_below};

    ghost size_decreases = { λ b h. block_below b.entries.value.items };
}

impl Block {
    // The block of these entries, without a copy.
    pub fn new(entries: Vec<(Text, Value)>) -> Result<Self, AllocError>
        requires { AreInOrder (map entry_of entries.items) }
        ensures { IfOk result (λ made. made ≡ map entry_of entries.items) }
    {
        let (weight, depth) = measures::measures_of_entries(&entries);
        Ok(Block {
            weight,
            depth,
            entries: Arc::new(*entries.allocator(), entries)?,
        })
    }

    // An equal block, which shares the entries.
    pub fn copy(&self) -> Result<Self, AllocError>
        ensures { IfOk result (λ copy. copy ≡ self.now) }
    {
        Ok(Block {
            entries: Arc::try_clone(&self.entries)?,
            weight: self.weight,
            depth: self.depth,
        })
    }

    // The weight of a record of the entries, which is kept.
    pub fn weight(&self) -> u64
        ensures { result ≡ min (weight_of (rec (entries_of self.now))) (2 ^ 64 - 1) }
    {
        self.weight
    }

    // The depth of a record of the entries, which is kept.
    pub fn depth(&self) -> u32
        ensures { result ≡ min (depth_of (rec (entries_of self.now))) (2 ^ 32 - 1) }
    {
        self.depth
    }

    pub fn as_slice(&self) -> &[(Text, Value)]
        ensures entries { map entry_of result.now ≡ self.now }
        ensures order { AreInOrder self.now }
    {
        self.entries.as_slice()
    }

    pub fn len(&self) -> usize
        ensures { result ≡ length self.now }
    {
        self.entries.len()
    }

    // Whether the entries begin above the key.
    pub fn is_behind(&self, key: &str) -> bool
        ensures { result ≡ is_behind key.now self.now }
    {
        match self.as_slice() {
            [] => false,
            [first, ..] => key.cmp(&first.0.as_str()).is_lt(),
        }
    }

    // What stands under the key.
    pub fn get(&self, key: &str) -> Option<&Value>
        ensures { option_map (λ value. datum_of value.now) result ≡ entry_at key.now self.now }
    {
        attrs::find(self.entries.as_slice(), key)
    }

    // The block with the value under the key, in the place of what stood there.
    pub fn with(&self, key: Text, value: Value) -> Result<Self, AllocError>
        ensures { IfOk result (λ made. made ≡ with_entry self.now key (datum_of value)) }
    {
        let mut entries = attrs::copied(*self.entries.allocator(), self.as_slice())?;
        attrs::put(&mut entries, key, value)?;
        Block::new(entries)
    }

    // The block without what stands under the key.
    pub fn without(&self, key: &str) -> Result<Self, AllocError>
        ensures { IfOk result (λ made. made ≡ without_entry self.now key.now) }
    {
        let mut entries = attrs::copied(*self.entries.allocator(), self.as_slice())?;
        attrs::take_out(&mut entries, key);
        Block::new(entries)
    }

    // The block in two, neither of which is empty.
    pub fn halves(&self) -> Result<(Self, Self), AllocError>
        requires { 2 ≤ length self.now }
        ensures joined { IfOk result (λ halves. halves.0 ++ halves.1 ≡ self.now) }
        ensures filled { IfOk result (λ halves. (0 < length halves.0) × (0 < length halves.1)) }
    {
        let alloc = *self.entries.allocator();
        let (front, back) = self.as_slice().split_at(self.len() / 2);
        let front = Block::new(attrs::copied(alloc, front)?)?;
        let back = Block::new(attrs::copied(alloc, back)?)?;
        Ok((front, back))
    }
}
