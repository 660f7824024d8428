ghost use Rattle.std.specs.Prelude.{◌≡◌, ◌≢◌, ◌<◌, ◌++◌, ℕ, List, [], Some, None, drop, take};
ghost use Rattle.std.specs.Prelude.{filter, reverse, not, ◌==◌, ◌-◌, ◌^◌, min, length, map};
ghost use Rattle.std.specs.Prelude.{option_map, IfOk, IfSome, Ok, OnOk, OnErr};
ghost use Rattle.std.specs.Cmp.Lexicographic.{slice_cmp};
ghost use Rattle.std.specs.List.Sorted.{IsStableBy};
ghost use Rattle.std.specs.Ordering.{nat_cmp, is_lt};
ghost use Rattle.std.specs.Str.{bytes_eq};
ghost use Rattle.pg_value.specs.Attrs.{AreInOrder, entry_at, with_entry, with_value_at};
ghost use Rattle.pg_value.specs.Attrs.{without_entry, place_of, of_entries, of_first_entries};
ghost use Rattle.pg_value.specs.Datum.{rec, entries_of};
ghost use Rattle.pg_value.specs.Depth.{depth_of};
ghost use Rattle.pg_value.specs.Value.{datum_of, entry_of};
ghost use Rattle.pg_value.specs.Weight.{weight_of};

use crate::measures;
use crate::value::Value;
use pg_text::Text;
use std::alloc::{AllocError, Global};
use std::cmp::Ordering;
use std::marker::Model;

/// Among at most so many entries a key is looked for one entry after the other: most keys differ in
/// their lengths, which tells sooner than their order.
const FEW: usize = 16;

/// The entries of a record: values under distinct keys, in rising byte order of the keys. Contracts
/// see the list of each key's bytes with what stands under it.
#[derive(Drop)]
pub struct Attrs {
    entries: Vec<(Text, Value)>,
}

impl Model for Attrs {
    ghost use Rattle.std.specs.Prelude.{List, ℕ, map};
    ghost use Rattle.pg_value.specs.Datum.{Datum};
    ghost use Rattle.pg_value.specs.DatumCode.{entries_code};

    ghost Value = { List (List ℕ × Datum) };

    ghost coded = { entries_code };

    ghost use Rattle.pg_value.specs.Attrs.{AreInOrder};
    ghost use Rattle.pg_value.specs.Value.{entry_of};

    ghost view = { λ a. map entry_of a.entries.items };

    ghost invariant = { λ a. AreInOrder (map entry_of a.entries.items) };
}

impl Attrs {
    /// No entries.
    pub fn empty(alloc: Global) -> Self
        ensures { result ≡ [] }
    {
        Attrs {
            entries: Vec::new(alloc),
        }
    }

    /// These entries, without a copy.
    pub fn new(entries: Vec<(Text, Value)>) -> Self
        requires { AreInOrder (map entry_of entries.items) }
        ensures { result ≡ map entry_of entries.items }
    {
        Attrs { entries }
    }

    /// The entries of these keys, in order. Of equal keys the last stands.
    pub fn from_entries(entries: Vec<(Text, Value)>) -> Result<Self, AllocError>
        ensures { IfOk result (λ made. made ≡ of_entries (map entry_of entries.items)) }
    {
        Ok(Attrs::new(gathered(sorted(entries)?)?))
    }

    /// The entries of these keys, in order. Of equal keys the first stands.
    pub fn from_first_entries(entries: Vec<(Text, Value)>) -> Result<Self, AllocError>
        ensures { IfOk result (λ made. made ≡ of_first_entries (map entry_of entries.items)) }
    {
        Attrs::from_entries(reversed(entries))
    }

    /// Equal entries, which share the keys and the values.
    pub fn copy(&self) -> Result<Self, AllocError>
        ensures { IfOk result (λ copy. copy ≡ self.now) }
    {
        Ok(Attrs {
            entries: copied(*self.entries.allocator(), &self.entries)?,
        })
    }

    /// The weight of the record.
    pub fn weight(&self) -> u64
        ensures { result ≡ min (weight_of (rec (entries_of self.now))) (2 ^ 64 - 1) }
    {
        measures::measures_of_entries(&self.entries).0
    }

    /// The depth of the record.
    pub fn depth(&self) -> u32
        ensures { result ≡ min (depth_of (rec (entries_of self.now))) (2 ^ 32 - 1) }
    {
        measures::measures_of_entries(&self.entries).1
    }

    /// What stands under the key.
    pub fn get(&self, key: &str) -> Option<&Value>
        ensures { option_map (λ value. datum_of value.now) result ≡ entry_at key.now self.now }
    {
        find(&self.entries, key)
    }

    /// Puts the value under the key, in the place of what stood there.
    #[tactic(auto, using(crate::proofs::Lookups::found))]
    pub fn insert(&mut self, key: Text, value: Value) -> Result<(), AllocError>
        ensures ok { OnOk result (self.new ≡ with_entry self.old key (datum_of value)) }
        ensures found { OnOk result (entry_at key self.new ≡ Some (datum_of value)) }
        ensures others { OnOk result ((other : List ℕ) → other ≢ key → entry_at other self.new
            ≡ entry_at other self.old) }
        ensures err { OnErr result (self.new ≡ self.old) }
    {
        put(&mut self.entries, key, value)
    }

    /// Puts the value under the key, in the place of what stood there. The key is copied only if
    /// it wasn't there: an entry that is there keeps its own.
    pub fn set(&mut self, key: &Text, value: Value) -> Result<(), AllocError>
        ensures ok { OnOk result (self.new ≡ with_entry self.old key.now (datum_of value)) }
        ensures err { OnErr result (self.new ≡ self.old) }
    {
        match place(&self.entries, key.as_str()) {
            Ok(at) => replace(&mut self.entries, at, key, value),
            Err(_) => put(&mut self.entries, key.copy()?, value)?,
        }
        Ok(())
    }

    /// Takes out what stands under the key.
    pub fn remove(&mut self, key: &str)
        ensures rest { self.new ≡ without_entry self.old key.now }
        ensures gone { entry_at key.now self.new ≡ None }
        ensures others { (other : List ℕ) → other ≢ key.now → entry_at other self.new
            ≡ entry_at other self.old }
    {
        take_out(&mut self.entries, key);
    }

    /// A law: a value that is put again where it stands, or that is taken out and put back, gives
    /// the same entries.
    #[tactic(auto, using(crate::proofs::PutBack::put_again, crate::proofs::PutBack::put_back))]
    pub fn put_back(entries: &Attrs, key: &str, value: &Value)
        requires { entry_at key.now entries.now ≡ Some (datum_of value.now) }
        ensures again { with_entry entries.now key.now (datum_of value.now) ≡ entries.now }
        ensures back { with_entry (without_entry entries.now key.now) key.now (datum_of value.now) ≡ entries.now }
    {
        let _ = &entries.entries;
    }

    pub fn as_slice(&self) -> &[(Text, Value)]
        ensures entries { map entry_of result.now ≡ self.now }
        ensures order { AreInOrder self.now }
    {
        &self.entries
    }

    pub fn len(&self) -> usize
        ensures { result ≡ length self.now }
    {
        self.entries.len()
    }

    pub fn is_empty(&self) -> bool
        ensures { result ≡ (length self.now == 0) }
    {
        self.entries.is_empty()
    }

    /// The entries, without a copy.
    pub fn into_vec(self) -> Vec<(Text, Value)>
        ensures entries { map entry_of result.items ≡ self }
        ensures order { AreInOrder self }
    {
        self.entries
    }
}

// Equal entries.
pub fn copied(alloc: Global, entries: &[(Text, Value)]) -> Result<Vec<(Text, Value)>, AllocError>
    ensures { IfOk result (λ copy. copy.items ≡ entries.now) }
{
    let mut copy = Vec::with_capacity(alloc, entries.len())?;
    push_copies(&mut copy, entries)?;
    Ok(copy)
}

// Puts equal entries behind the others.
pub fn push_copies(
    onto: &mut Vec<(Text, Value)>,
    entries: &[(Text, Value)],
) -> Result<(), AllocError>
    ensures { OnOk result (onto.new.items ≡ onto.old.items ++ entries.now) }
{
    for (key, value) in entries {
        onto.push((key.copy()?, value.copy()?))?;
    }
    Ok(())
}

fn reversed(mut entries: Vec<(Text, Value)>) -> Vec<(Text, Value)>
    ensures { result.items ≡ reverse entries.items }
{
    entries.reverse();
    entries
}

// The entries by rising keys, where those of one key stay in their order.
fn sorted(mut entries: Vec<(Text, Value)>) -> Result<Vec<(Text, Value)>, AllocError>
    ensures { IfOk result (λ sorted. IsStableBy (λ a b. is_lt (slice_cmp nat_cmp a.0 b.0)) entries.items
        sorted.items) }
{
    entries.sort_by(|a, b| order(a, b.0.as_str()))?;
    Ok(entries)
}

// The entries, put in one after the other: without a move where they come by rising keys.
fn gathered(entries: Vec<(Text, Value)>) -> Result<Vec<(Text, Value)>, AllocError>
    ensures value { IfOk result (λ made. map entry_of made.items ≡ of_entries (map entry_of entries.items)) }
    ensures order { IfOk result (λ made. AreInOrder (map entry_of made.items)) }
{
    let mut made = Vec::with_capacity(*entries.allocator(), entries.len())?;
    for (key, value) in entries {
        put(&mut made, key, value)?;
    }
    Ok(made)
}

pub fn put(entries: &mut Vec<(Text, Value)>, key: Text, value: Value) -> Result<(), AllocError>
    requires { AreInOrder (map entry_of entries.old.items) }
    ensures ok { OnOk result (map entry_of entries.new.items ≡ with_entry (map entry_of entries.old.items) key
        (datum_of value)) }
    ensures err { OnErr result (entries.new.items ≡ entries.old.items) }
{
    match place(entries, key.as_str()) {
        Ok(at) => replace(entries, at, &key, value),
        Err(at) => entries.insert(at, (key, value))?,
    }
    Ok(())
}

// Puts the value in the place of the one that stands under the key.
fn replace(entries: &mut Vec<(Text, Value)>, at: usize, key: &Text, value: Value)
    requires { place_of key.now entries.old.items ≡ Ok at }
    ensures { map entry_of entries.new.items ≡ with_entry (map entry_of entries.old.items) key.now (datum_of value) }
{
    entries[at].1 = value;
}

// Puts the value in the place of the one at this place, under the key that stands there, as
// `Record::set_at` does in a record of few entries. It takes no memory.
pub fn set_at(entries: &mut Vec<(Text, Value)>, at: usize, value: Value)
    requires { at < length (map entry_of entries.old.items) }
    ensures { map entry_of entries.new.items ≡ with_value_at (map entry_of entries.old.items) at (datum_of value) }
{
    entries[at].1 = value;
}

// The entries from this place on.
pub fn from(entries: &[(Text, Value)], place: usize) -> &[(Text, Value)]
    ensures same { map entry_of result.now ≡ take (length result.now) (drop place (map entry_of entries.now)) }
    ensures some { place < length (map entry_of entries.now) → 0 < length result.now }
{
    if place >= entries.len() {
        return &[];
    }
    let (_front, back) = entries.split_at(place);
    back
}

// Where the key stands, or where it would.
fn place(entries: &[(Text, Value)], key: &str) -> Result<usize, usize>
    requires { AreInOrder (map entry_of entries.now) }
    ensures { result ≡ place_of key.now entries.now }
{
    if entries.len() <= FEW {
        if let Some(at) = place_among(entries, key) {
            return Ok(at);
        }
    }
    entries.binary_search_by(|entry| order(entry, key))
}

// Where the key stands, one entry after the other.
#[tactic(auto, using(crate::proofs::Halving::met_at))]
fn place_among(entries: &[(Text, Value)], key: &str) -> Option<usize>
    requires { AreInOrder (map entry_of entries.now) }
    ensures { IfSome result (λ at. place_of key.now entries.now ≡ Ok at) }
{
    for (at, entry) in entries.iter().enumerate() {
        if is_at(entry, key) {
            return Some(at);
        }
    }
    None
}

// How the key of the entry stands to this one.
fn order(entry: &(Text, Value), key: &str) -> Ordering
    ensures { result ≡ slice_cmp nat_cmp entry.now.0 key.now }
{
    entry.0.as_str().cmp(&key)
}

// What stands under the key.
pub fn find<'a>(entries: &'a [(Text, Value)], key: &str) -> Option<&'a Value>
    requires { AreInOrder (map entry_of entries.now) }
    ensures { option_map (λ value. datum_of value.now) result ≡ entry_at key.now (map entry_of entries.now) }
{
    if entries.len() <= FEW {
        return find_among(entries, key);
    }
    match place(entries, key) {
        Ok(at) => Some(&entries[at].1),
        Err(_) => None,
    }
}

// The same, one entry after the other.
fn find_among<'a>(entries: &'a [(Text, Value)], key: &str) -> Option<&'a Value>
    ensures { option_map (λ value. datum_of value.now) result ≡ entry_at key.now (map entry_of entries.now) }
{
    for entry in entries {
        if entry.0.as_str() == key {
            return Some(&entry.1);
        }
    }
    None
}

// Takes out what stands under the key.
pub fn take_out(entries: &mut Vec<(Text, Value)>, key: &str)
    ensures { entries.new.items ≡ filter (λ e. not (bytes_eq key.now e.0)) entries.old.items }
{
    entries.retain(|entry| !is_at(entry, key));
}

#[inline(always)]
fn is_at(entry: &(Text, Value), key: &str) -> bool
    ensures { result ≡ bytes_eq key.now entry.now.0 }
{
    key == entry.0.as_str()
}
