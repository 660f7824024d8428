ghost use Rattle.std.specs.Prelude.{Some, ◌≡◌, ◌==◌, ◌<◌, ◌-◌, ◌^◌, min, length, map, take, drop};
ghost use Rattle.std.specs.Prelude.{option_map, slice_get, IfOk, IfSome, OnOk, OnErr};
ghost use Rattle.pg_value.specs.Attrs.{AreInOrder, entry_at, with_entry, with_value_at};
ghost use Rattle.pg_value.specs.Attrs.{without_entry};
ghost use Rattle.pg_value.specs.Datum.{rec, entries_of};
ghost use Rattle.pg_value.specs.Depth.{depth_of};
ghost use Rattle.pg_value.specs.ReadEntries.{AreKept, in_entries};
ghost use Rattle.pg_value.specs.Value.{datum_of, entry_of};
ghost use Rattle.pg_value.specs.Weight.{weight_of};

use crate::attrs::Attrs;
use crate::entries::Entries;
use crate::measures;
use crate::value::Value;
use pg_text::Text;
use std::alloc::AllocError;
use std::marker::Model;
use std::sync::Arc;

/// The entries of a record, shared by its copies, and beside them what the record weighs and how
/// deep it is. Contracts see the list of the entries, as of an `Attrs`.
#[cycle(value)]
#[derive(Drop)]
pub struct Record {
    entries: Arc<Entries>,
    weight: u64,
    depth: u32,
}

impl Model for Record {
    ghost use Rattle.std.specs.Prelude.{Some, List, ℕ};
    ghost use Rattle.pg_value.specs.Datum.{Datum, rec, entries_of};
    ghost use Rattle.pg_value.specs.DatumCode.{entries_code};

    ghost Value = { List (List ℕ × Datum) };

    ghost coded = { entries_code };

    ghost use Rattle.pg_value.specs.Measured.{IsMeasured};
    ghost use Rattle.pg_value.specs.ReadEntries.{AreKept, in_entries};
    ghost use Rattle.pg_value.specs.Size.{record_size};

    ghost view = { λ r. in_entries r.entries.value };

    ghost invariant = { λ r.
        AreKept r.entries.value × IsMeasured (rec (entries_of (in_entries r.entries.value))) r.weight r.depth };

    ghost size = { record_size };

    ghost use Rattle.pg_value.specs.SizeFalls.{entries_below};

    ghost size_decreases = { λ r h. entries_below r.entries.value };
}

impl Record {
    /// The record of these entries, without a copy.
    pub fn new(entries: Attrs) -> Result<Self, AllocError>
        ensures { IfOk result (λ made. made ≡ entries) }
    {
        let entries = entries.into_vec();
        let alloc = *entries.allocator();
        let (weight, depth) = measures::measures_of_entries(&entries);
        Ok(Record {
            weight,
            depth,
            entries: Arc::new(alloc, Entries::Few(entries))?,
        })
    }

    /// An equal record, which shares the entries.
    pub fn copy(&self) -> Result<Self, AllocError>
        ensures { IfOk result (λ copy. copy ≡ self.now) }
    {
        Ok(Record {
            entries: Arc::try_clone(&self.entries)?,
            weight: self.weight,
            depth: self.depth,
        })
    }

    /// The weight of the record, which is kept.
    pub fn weight(&self) -> u64
        ensures { result ≡ min (weight_of (rec (entries_of self.now))) (2 ^ 64 - 1) }
    {
        self.weight
    }

    /// The depth of the record, which is kept.
    pub fn depth(&self) -> u32
        ensures { result ≡ min (depth_of (rec (entries_of self.now))) (2 ^ 32 - 1) }
    {
        self.depth
    }

    /// What stands under the key.
    #[inline(always)]
    pub fn get(&self, key: &str) -> Option<&Value>
        ensures { option_map (λ value. datum_of value.now) result ≡ entry_at key.now self.now }
    {
        self.entries.find(key)
    }

    /// Puts the value under the key, in the place of what stood there. Where other records share
    /// the entries, few are copied, and of many those that stand by the key. A record of 2^63
    /// entries, which no memory holds, is refused as if memory ran out.
    pub fn insert(&mut self, key: Text, value: Value) -> Result<(), AllocError>
        ensures ok { OnOk result (self.new ≡ with_entry self.old key (datum_of value)) }
        ensures err { OnErr result (self.new ≡ self.old) }
    {
        put(&mut self.entries, key, value)?;
        let (weight, depth) = self.entries.measures();
        self.weight = weight;
        self.depth = depth;
        Ok(())
    }

    /// Takes out what stands under the key. Entries are copied as [`insert`](Self::insert) copies
    /// them.
    pub fn remove(&mut self, key: &str) -> Result<(), AllocError>
        ensures ok { OnOk result (self.new ≡ without_entry self.old key.now) }
        ensures err { OnErr result (self.new ≡ self.old) }
    {
        take_out(&mut self.entries, key)?;
        let (weight, depth) = self.entries.measures();
        self.weight = weight;
        self.depth = depth;
        Ok(())
    }

    /// Puts the value in the place of the one at this place, under the key that stands there.
    /// Entries are copied as [`insert`](Self::insert) copies them.
    pub fn set_at(&mut self, at: usize, value: Value) -> Result<(), AllocError>
        requires { at < length self.old }
        ensures ok { OnOk result (self.new ≡ with_value_at self.old at (datum_of value)) }
        ensures err { OnErr result (self.new ≡ self.old) }
    {
        let keeps_measures = self.entries.keeps_measures(at, &value);
        put_at(&mut self.entries, at, value)?;
        if !keeps_measures {
            let (weight, depth) = self.entries.measures();
            self.weight = weight;
            self.depth = depth;
        }
        Ok(())
    }

    /// The entries from this place on, as far as they stand in one list: at least the one at the
    /// place, where there is one.
    pub fn entries_from(&self, place: usize) -> &[(Text, Value)]
        ensures same { map entry_of result.now ≡ take (length result.now) (drop place self.now) }
        ensures some { place < length self.now → 0 < length result.now }
    {
        self.entries.from(place)
    }

    // The entry at this place.
    pub(crate) fn entry(&self, place: usize) -> &(Text, Value)
        requires { place < length self.now }
        ensures { Some (entry_of result.now) ≡ slice_get self.now place }
    {
        &self.entries_from(place)[0]
    }

    /// The entry at this place, counted from 0.
    pub fn at(&self, place: usize) -> Option<&(Text, Value)>
        ensures { option_map (λ entry. entry_of entry.now) result ≡ slice_get self.now place }
    {
        match self.entries_from(place) {
            [] => None,
            [entry, ..] => Some(entry),
        }
    }

    /// A law: the keys are distinct, and rise in byte order.
    pub fn keys_rise(&self)
        ensures { AreInOrder self.now }
    {
        let _ = &self.entries;
    }

    pub fn len(&self) -> usize
        ensures len { result ≡ length self.now }
        ensures few { result < 2 ^ 63 }
    {
        self.entries.len()
    }

    pub fn is_empty(&self) -> bool
        ensures { result ≡ (length self.now == 0) }
    {
        self.len() == 0
    }

    // The entries, where no copy shares them.
    pub(crate) fn into_sole(self) -> Option<Entries>
        ensures { IfSome result (λ entries. in_entries entries ≡ self) }
    {
        Arc::into_inner(self.entries)
    }

    /// The entries in one list, which is a copy where they stand in several, or where other records
    /// share them.
    pub fn into_attrs(self) -> Result<Attrs, AllocError>
        ensures { IfOk result (λ entries. entries ≡ self) }
    {
        match Arc::try_unwrap(self.entries) {
            Ok(Entries::Few(list)) => Ok(Attrs::new(list)),
            Ok(entries) => Ok(Attrs::new(entries.listed()?)),
            Err(shared) => Ok(Attrs::new(shared.listed()?)),
        }
    }
}

// Puts the value under the key, in the entries themselves where no other record shares them, and
// else in a copy.
fn put(shared: &mut Arc<Entries>, key: Text, value: Value) -> Result<(), AllocError>
    requires { AreKept shared.old.value }
    ensures ok { OnOk result (in_entries shared.new.value
        ≡ with_entry (in_entries shared.old.value) key (datum_of value)) }
    ensures err { OnErr result (in_entries shared.new.value ≡ in_entries shared.old.value) }
    ensures kept { AreKept shared.new.value }
{
    if let Some(entries) = Arc::get_mut(shared) {
        return entries.put(key, value);
    }
    let mut entries = shared.copy()?;
    entries.put(key, value)?;
    *shared = Arc::new(entries.allocator(), entries)?;
    Ok(())
}

// Puts the value in its place, in the entries themselves where no other record shares them, and
// else in a copy.
#[inline(always)]
fn put_at(shared: &mut Arc<Entries>, at: usize, value: Value) -> Result<(), AllocError>
    requires within { at < length (in_entries shared.old.value) }
    requires kept { AreKept shared.old.value }
    ensures ok { OnOk result (in_entries shared.new.value
        ≡ with_value_at (in_entries shared.old.value) at (datum_of value)) }
    ensures err { OnErr result (in_entries shared.new.value ≡ in_entries shared.old.value) }
    ensures kept { AreKept shared.new.value }
{
    match Arc::get_mut(shared) {
        Some(entries) => entries.set_at(at, value),
        None => put_in_copy(shared, at, value),
    }
}

// Puts the value in its place, in a copy of the entries.
#[inline(never)]
fn put_in_copy(shared: &mut Arc<Entries>, at: usize, value: Value) -> Result<(), AllocError>
    requires within { at < length (in_entries shared.old.value) }
    requires kept { AreKept shared.old.value }
    ensures ok { OnOk result (in_entries shared.new.value
        ≡ with_value_at (in_entries shared.old.value) at (datum_of value)) }
    ensures err { OnErr result (in_entries shared.new.value ≡ in_entries shared.old.value) }
    ensures kept { AreKept shared.new.value }
{
    let mut entries = shared.copy()?;
    entries.set_at(at, value)?;
    *shared = Arc::new(entries.allocator(), entries)?;
    Ok(())
}

// Takes out what stands under the key, of the entries themselves where no other record shares them,
// and else of a copy.
fn take_out(shared: &mut Arc<Entries>, key: &str) -> Result<(), AllocError>
    requires { AreKept shared.old.value }
    ensures ok { OnOk result (in_entries shared.new.value ≡ without_entry (in_entries shared.old.value) key.now) }
    ensures err { OnErr result (in_entries shared.new.value ≡ in_entries shared.old.value) }
    ensures kept { AreKept shared.new.value }
{
    if let Some(entries) = Arc::get_mut(shared) {
        return entries.take_out(key);
    }
    let mut entries = shared.copy()?;
    entries.take_out(key)?;
    *shared = Arc::new(entries.allocator(), entries)?;
    Ok(())
}
